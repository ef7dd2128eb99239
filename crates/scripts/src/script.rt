//! The lines of a script, cut off one by one.
ghost use Rattle.std.specs.Prelude.{◌≡◌, ◌<◌, ◌∷◌, length};
ghost use Rattle.scripts.specs.Scripts.{lines};

use crate::bytes::cut;

// The first line of some, and what stands behind its end; behind the last end there is no line.
#[tactic(auto, using(crate::proofs::Cuts::first_line, crate::proofs::Cuts::last_line))]
pub(crate) fn cut_line(script: &[u8]) -> (&[u8], &[u8])
    requires { 0 < length script.now }
    ensures lines { lines script.now ≡ result.0.now ∷ lines result.1.now }
    ensures less { length result.1.now < length script.now }
{
    let (line, rest) = cut(script, b'\n');
    match rest {
        Some(rest) => (line, rest),
        None => (line, &[]),
    }
}

// How many lines there are.
pub(crate) fn count_lines(script: &[u8]) -> usize
    ensures { result ≡ length (lines script.now) }
{
    let mut count = 0;
    let mut rest = script;
    while !rest.is_empty() {
        (_, rest) = cut_line(rest);
        count += 1;
    }
    count
}
