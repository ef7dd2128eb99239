//! Bytes cut at one of them.
ghost use Rattle.std.specs.Prelude.{◌≡◌, ◌<◌, ◌∷◌, ◌==◌, length, IfSome};
ghost use Rattle.std.specs.List.{position, slice_split};
ghost use Rattle.scripts.specs.Words.{parts_in};

// Where this byte stands first.
fn first_at(bytes: &[u8], wanted: u8) -> Option<usize>
    ensures { result ≡ position (λ byte. byte == wanted) bytes.now }
{
    bytes.iter().position(|byte| *byte == wanted)
}

// What stands before the first such byte, and what stands behind it, where there is one.
#[tactic(auto, using(crate::proofs::Cuts::cut_at, crate::proofs::Cuts::uncut))]
pub(crate) fn cut(bytes: &[u8], wanted: u8) -> (&[u8], Option<&[u8]>)
    ensures parts { slice_split (λ byte. byte == wanted) bytes.now
        ≡ result.0.now ∷ parts_in (λ byte. byte == wanted) result.1 }
    ensures less { IfSome result.1 (λ rest. length rest.now < length bytes.now) }
{
    match first_at(bytes, wanted) {
        Some(at) => (&bytes[..at], Some(&bytes[at + 1..])),
        None => (bytes, None),
    }
}
