//! How much memory a keeper uses.
ghost use Rattle.std.specs.Prelude.{◌≡◌};
ghost use Rattle.keepers.specs.Memory.{memory_answer};

use cards::refusal::Refusal;

/// The most places that a keeper uses, so that a place number has 16 bits.
pub const MOST_PLACES: usize = 65536;

/// Whether memory of this many places is used whole: `Sizes` for more than 65,536, of which a keeper uses the first 65,536.
pub fn check_memory(places: usize) -> Result<(), Refusal>
    ensures { result ≡ memory_answer places }
{
    if places > MOST_PLACES {
        return Err(Refusal::Sizes);
    }
    Ok(())
}
