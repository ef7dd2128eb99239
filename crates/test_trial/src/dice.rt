// Numbers that look thrown, and are the same each time for one seed.

#[derive(Clone, Copy)]
pub struct Dice {
    state: u64,
}

impl Dice {
    pub fn new(seed: u64) -> Dice {
        let state = seed ^ 0x9E37_79B9_7F4A_7C15;
        Dice {
            state: if state == 0 { 1 } else { state },
        }
    }

    fn roll(&mut self) -> u64 {
        let mut x = self.state;
        x ^= x >> 12;
        x ^= x << 25;
        x ^= x >> 27;
        self.state = x;
        x.wrapping_mul(0x2545_F491_4F6C_DD1D) >> 32
    }

    // A number below the bound; 0, where that is 0.
    pub fn below(&mut self, bound: u16) -> u16 {
        let number = self.roll().checked_rem(u64::from(bound)).unwrap_or(0);
        u16::try_from(number).unwrap_or(0)
    }

    // True in so many of a thousand throws.
    pub fn chance(&mut self, of_thousand: u16) -> bool {
        self.below(1000) < of_thousand
    }

    pub fn number(&mut self) -> i16 {
        let [_, _, _, _, _, _, high, low] = self.roll().to_be_bytes();
        i16::from_be_bytes([high, low])
    }
}
