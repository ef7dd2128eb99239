//! A seat: what is open there.
ghost use Rattle.std.specs.Prelude.{◌≡◌, ◌≤◌, length, drop, slice_get};
ghost use Rattle.rules.specs.Seat.{idle, begin, go_on, has_read, note, draft_of, draft, unput_of};
ghost use Rattle.rules.specs.State.{lower_ready, lower_floor};
ghost use Rattle.rules.specs.declared.limits.TheConstants.{MOST_DRAFTS};
ghost use Rattle.table.specs.GoesBy.{GoesBy};

use crate::short::Short;
use cards::card::Card;
use cards::draft::Draft;
use cards::refusal::Refusal;
use keepers::search::last_match;
use rules::limits::{MOST_DRAFTS, MOST_READS};
use rules::stage::Stage;
use std::marker::Model;

/// Its stage, the entries that its edit has read, at most 32, and its edit's drafts, at most 16 and no two of one entry.
///
/// Contracts see it as the seat of the rules.
#[derive(Drop)]
pub struct Seat {
    stage: Stage,
    reads: Short<u16, MOST_READS>,
    drafts: Short<Draft, MOST_DRAFTS>,
}

impl Model for Seat {
    ghost use Rattle.std.specs.Prelude.{IsTrue};
    ghost use Rattle.rules.specs.Seat.{Seat};
    ghost use Rattle.table.specs.Once.{once};

    ghost Value = { Seat };

    ghost view = { λ x. record { stage = x.stage; reads = x.reads; drafts = x.drafts } };

    ghost invariant = { λ x. IsTrue (once x.drafts) };
}

impl Seat {
    /// A seat at first.
    pub fn idle() -> Seat
        ensures { result ≡ idle }
    {
        let draft = Draft {
            entry: 0,
            card: Card::blank(),
        };
        Seat {
            stage: Stage::Idle,
            reads: Short::new(0),
            drafts: Short::new(draft),
        }
    }

    /// What it is doing.
    pub fn stage(&self) -> Stage
        ensures { result ≡ self.now.stage }
    {
        self.stage
    }

    /// The entries that its edit has read, in order of arrival.
    pub fn reads(&self) -> &[u16]
        ensures { result.now ≡ self.now.reads }
    {
        self.reads.as_slice()
    }

    /// Its edit's drafts, in order of arrival.
    pub fn drafts(&self) -> &[Draft]
        ensures drafts { result.now ≡ self.now.drafts }
        ensures few { length result.now ≤ MOST_DRAFTS }
    {
        self.drafts.as_slice()
    }

    /// Its draft of an entry, if there is one.
    pub fn draft_of(&self, entry: u16) -> Option<Card>
        ensures { result ≡ draft_of self.now.drafts entry }
    {
        let drafts = self.drafts.as_slice();
        last_match(drafts, entry, 0).map(|at| drafts[at].card)
    }

    /// How many drafts it has.
    pub fn drafts_len(&self) -> u32
        ensures count { result ≡ length self.now.drafts }
        ensures few { result ≤ MOST_DRAFTS }
    {
        self.drafts().len() as u32
    }

    /// Its draft in a place, counted from 0, if there is one.
    pub fn draft_at(&self, at: u32) -> Option<Draft>
        ensures { result ≡ slice_get (drop at self.now.drafts) 0 }
    {
        self.drafts().get(at as usize).copied()
    }

    // How many drafts a stamped edit has not yet put.
    pub(crate) fn unput(&self) -> u32
        ensures count { result ≡ length (unput_of self.now.drafts self.now.stage) }
        ensures few { result ≤ MOST_DRAFTS }
    {
        match self.stage {
            Stage::Stamped { put, .. } => self.drafts_len().saturating_sub(put),
            _ => 0,
        }
    }

    /// Begins a stage, with empty lists.
    pub fn begin(&mut self, stage: Stage)
        ensures { self.new ≡ begin stage }
    {
        self.stage = stage;
        self.reads.clear();
        self.drafts.clear();
    }

    /// Goes on to a stage, with the lists that it has.
    pub fn go_on(&mut self, next: Stage)
        ensures { self.new ≡ go_on next self.old }
    {
        self.stage = next;
    }

    // Whether its edit has read an entry.
    fn has_read(&self, entry: u16) -> bool
        ensures { result ≡ has_read self.now.reads entry }
    {
        last_match(self.reads(), entry, 0).is_some()
    }

    /// Notes, once, that its edit reads an entry; `List`, and nothing changes, where it would be the 33rd.
    pub fn note(&mut self, entry: u16) -> Result<(), Refusal>
        ensures { GoesBy (note entry) self.old self.new result }
    {
        if self.has_read(entry) {
            return Ok(());
        }
        self.reads.push(entry)
    }

    /// Drafts a card for an entry, in place of an earlier draft or at the end; `List`, and nothing changes, where it would be the 17th.
    pub fn draft(&mut self, entry: u16, card: Card) -> Result<(), Refusal>
        ensures { GoesBy (draft entry card) self.old self.new result }
    {
        let draft = Draft { entry, card };
        match last_match(self.drafts.as_slice(), entry, 0) {
            Some(at) => {
                self.drafts.replace(at, draft);
                Ok(())
            }
            None => self.drafts.push(draft),
        }
    }

    // A ready point, lowered to below its time where a stamped edit has a draft not yet put.
    pub(crate) fn lower_ready(&self, ready: u32) -> u32
        ensures { result ≡ lower_ready ready self.now.drafts self.now.stage }
    {
        match self.stage {
            Stage::Stamped { time, put } if put < self.drafts_len() => {
                ready.min(time.saturating_sub(1))
            }
            _ => ready,
        }
    }

    // A floor, lowered to the start of an open proof.
    pub(crate) fn lower_floor(&self, floor: u32) -> u32
        ensures { result ≡ lower_floor floor self.now.stage }
    {
        match self.stage {
            Stage::Proof { start } => floor.min(start),
            _ => floor,
        }
    }
}
