//! The store for a host that is written in C: a static library with one function, which `host/nalzeiku.h` declares.
#![tactic(auto)]

ghost use Rattle.std.specs.Prelude.{◌≡◌, length};
ghost use Rattle.std.specs.Bool.{OnFalse};
ghost use Rattle.cards.specs.Refusals.{number_of};
ghost use Rattle.scratch.specs.Scratch.{ScratchLaw};
ghost use Rattle.nalzeiku.specs.declared.TheConstants.{MOST_SCRIPT};
ghost use Rattle.nalzeiku.specs.Host.{host_answer, is_refused, host_memory, minus};

use cards::refusal::Refusal;
use scratch::run_on_scratch;

/// The most bytes of a script that a host hands in.
pub const MOST_SCRIPT: usize = 4096;

// What a host in C is told of a refusal: its number below 0.
fn refused(why: Refusal) -> i64
    ensures { result ≡ minus (number_of why) }
{
    -i64::from(why.number())
}

/// Runs a script on a new store, and writes the answers to its lines to the front of memory. Answers how many bytes were
/// written; or -13 for a script of more than 4,096 bytes, or -16 where the memory has not 64 bytes for each line, and then no byte is
/// written. Nothing is allocated. In C a slice is a pointer and a length.
#[tactic(auto, using(scratch::proofs::Founded::scratch_law))]
#[unsafe(no_mangle)]
pub extern "C" fn nalzeiku_run(script: &[u8], memory: &mut [u8]) -> i64
    ensures answer { result ≡ host_answer script.now (length memory.old) }
    ensures memory { memory.new ≡ host_memory script.now memory.old result }
    ensures law { OnFalse (is_refused result) (ScratchLaw script.now (length memory.old)) }
    ensures longest { MOST_SCRIPT ≡ 4096 }
{
    if script.len() > MOST_SCRIPT {
        return refused(Refusal::Sizes);
    }
    match run_on_scratch(script, memory) {
        Ok(len) => len as i64,
        Err(why) => refused(why),
    }
}
