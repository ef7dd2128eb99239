//! Running a script on a store.
ghost use Rattle.std.specs.Prelude.{◌≡◌, ◌+◌, ◌-◌, ◌*◌, ◌^◌, ◌≤◌, OnErr, List, [], ◌∷◌, ◌++◌, length, take, drop, min};
ghost use Rattle.rules.specs.Runs.{Event, events, Reached, play};
ghost use Rattle.store.specs.Runs.{LawfulRun};
ghost use Rattle.store.specs.View.{view};
ghost use Rattle.scripts.specs.Lines.{read};
ghost use Rattle.scripts.specs.Scripts.{lines, readings, calls_in, whole_text};
ghost use Rattle.scripts.specs.Scripts.{script_calls, script_answers, script_text, script_result, written};
ghost use Rattle.scripts.specs.declared.line.TheConstants.{MOST_BYTES};

use crate::reader::read_line;
use crate::script::{count_lines, cut_line};
use crate::writer::{Line, MOST_BYTES, answer_line, unread_line};
use cards::refusal::Refusal;
use keepers::keeper::Keeper;
use store::Store;

// Answers one line.
fn answer<K: Keeper>(store: &mut Store<K>, line: &[u8]) -> Line
    ensures state { view K.means store.new ≡
        play (view K.means store.old) (calls_in (read line.now ∷ [])) }
    ensures text { result.bytes ≡ whole_text (view K.means store.old) (read line.now ∷ []) }
    ensures short { length result.bytes ≤ MOST_BYTES }
{
    match read_line(line) {
        Ok(call) => answer_line(call, store.apply(call)),
        Err(place) => unread_line(place),
    }
}

// Writes a text at a place of memory.
fn write_at(memory: &mut [u8], at: usize, text: &[u8])
    requires { at + length text.now ≤ length memory.old }
    ensures front { take (at + length text.now) memory.new ≡ take at memory.old ++ text.now }
    ensures behind { drop (at + length text.now) memory.new ≡
        drop (at + length text.now) memory.old }
    ensures len { length memory.new ≡ length memory.old }
{
    memory[at..at + text.len()].copy_from_slice(text);
}

// Answers the lines of a script, and gives the number of bytes written.
fn answer_lines<K: Keeper>(store: &mut Store<K>, script: &[u8], memory: &mut [u8]) -> usize
    requires { MOST_BYTES * length (lines script.now) ≤ length memory.old }
    ensures state { view K.means store.new ≡
        play (view K.means store.old) (calls_in (readings script.now)) }
    ensures memory { memory.new ≡
        written (whole_text (view K.means store.old) (readings script.now)) memory.old }
    ensures result { result ≡ length (whole_text (view K.means store.old) (readings script.now)) }
{
    let mut rest = script;
    let mut at = 0;
    while !rest.is_empty() {
        let (line, more) = cut_line(rest);
        let text = answer(store, line);
        write_at(memory, at, text.as_str().as_bytes());
        at += text.len();
        rest = more;
    }
    at
}

/// The room that is asked for the answers to a script: 64 bytes for each line, or the greatest number where that is more.
pub fn room_for(script: &[u8]) -> usize
    ensures { result ≡ min (MOST_BYTES * length (lines script.now)) (2 ^ 64 - 1) }
{
    count_lines(script).saturating_mul(MOST_BYTES)
}

/// Runs a script on a store and writes the answers to its lines, each of at most 64 bytes with its end, to the front of the memory, and gives
/// the number of bytes written. The law holds of every history that led to this store, with the script's calls and their answers.
///
/// Declined by `Short`, before any call is made, where the memory has not 64 bytes for each line.
pub fn run_script<K: Keeper>(
    store: &mut Store<K>,
    script: &[u8],
    memory: &mut [u8],
) -> Result<usize, Refusal>
    ensures state { view K.means store.new ≡
        play (view K.means store.old) (script_calls script.now (length memory.old)) }
    ensures memory { memory.new ≡
        written (script_text (view K.means store.old) script.now (length memory.old)) memory.old }
    ensures result { result ≡
        script_result (view K.means store.old) script.now (length memory.old) }
    ensures same { OnErr result (store.new ≡ store.old) }
    ensures law { (h : List Event) → Reached h (view K.means store.old) →
        LawfulRun
        (events h (script_calls script.now (length memory.old))
        (script_answers (view K.means store.old) script.now (length memory.old)))
        (view K.means store.new) }
{
    if memory.len() / MOST_BYTES < count_lines(script) {
        return Err(Refusal::Short);
    }
    Ok(answer_lines(store, script, memory))
}
