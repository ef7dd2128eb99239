//! A script run on a new, small store: what the try-out program and the C host do.
#![tactic(auto)]

ghost use Rattle.std.specs.Prelude.{◌≡◌, length};
ghost use Rattle.scratch.specs.Scratch.{scratch, scratch_sizes, script_result, scratch_memory, ScratchLaw};
ghost use Rattle.scratch.specs.declared.TheConstants.{PLACES};
ghost use Rattle.linked.specs.View.{linked_means};
ghost use Rattle.store.specs.View.{view};

use cards::refusal::Refusal;
use linked::{Linked, Place};
use scripts::run::run_script;
use store::{Sizes, Store};

/// How many versions the store's keeper has places for.
pub const PLACES: usize = 8;

// How many entries of each kind the store has.
fn sizes() -> Sizes
    ensures { result ≡ scratch_sizes }
{
    Sizes {
        letters: 2,
        marks: 1,
        pairs: 1,
    }
}

// The new store, over a keeper in memory of eight places.
fn scratch_store(memory: &mut [Place; PLACES]) -> Store<Linked<'_>>
    ensures { view linked_means result ≡ scratch }
{
    Store::new(Linked::new(memory), sizes())
}

/// Runs a script on a new store, whose places are this call's own, and writes the answers to its lines as `run_script` does; answers their
/// length. Nothing is allocated.
///
/// Declined by `Short`, and no byte is written, where the memory has not 64 bytes for each line.
#[tactic(auto, using(crate::proofs::Founded::scratch_law))]
pub fn run_on_scratch(script: &[u8], memory: &mut [u8]) -> Result<usize, Refusal>
    ensures result { result ≡ script_result scratch script.now (length memory.old) }
    ensures memory { memory.new ≡ scratch_memory script.now memory.old }
    ensures law { ScratchLaw script.now (length memory.old) }
    ensures places { PLACES ≡ 8 }
{
    let mut places = [Place::empty(); PLACES];
    let mut store = scratch_store(&mut places);
    run_script(&mut store, script, memory)
}
