// A seat of the plain store: its stage and its edit's two lists, in order of arrival.
use cards::card::Card;
use cards::draft::Draft;
use rules::stage::Stage;
use std::alloc::{AllocError, Global};

#[derive(Drop)]
pub struct Seat {
    pub stage: Stage,
    pub reads: Vec<u16>,
    pub drafts: Vec<Draft>,
}

impl Seat {
    pub fn idle(alloc: Global) -> Seat {
        Seat {
            stage: Stage::Idle,
            reads: Vec::new(alloc),
            drafts: Vec::new(alloc),
        }
    }

    // Goes to a stage with empty lists: an idle seat, or one whose proof or edit begins.
    pub fn begin(&mut self, stage: Stage) {
        self.stage = stage;
        self.reads.clear();
        self.drafts.clear();
    }

    // The edit's own draft of an entry.
    pub fn draft_of(&self, entry: u16) -> Option<Card> {
        for draft in &self.drafts {
            if draft.entry == entry {
                return Some(draft.card);
            }
        }
        None
    }

    pub fn has_read(&self, entry: u16) -> bool {
        self.reads.iter().any(|read| *read == entry)
    }

    // Adds the entries of the drafts and the reads to a list.
    pub fn note_entries(&self, list: &mut Vec<u16>) -> Result<(), AllocError> {
        for draft in &self.drafts {
            list.push(draft.entry)?;
        }
        for read in &self.reads {
            list.push(*read)?;
        }
        Ok(())
    }

    // How many drafts are not put yet.
    pub fn unput(&self) -> usize {
        match self.stage {
            Stage::Stamped { put, .. } => self.drafts.len().saturating_sub(put as usize),
            _ => self.drafts.len(),
        }
    }

    // Whether the seat has the entry locked: from its lock on, until the draft is put or the seat is idle.
    pub fn has_locked(&self, entry: u16) -> bool {
        let put = match self.stage {
            Stage::Locked { .. } => 0,
            Stage::Stamped { put, .. } => put as usize,
            _ => return false,
        };
        self.drafts
            .iter()
            .skip(put)
            .any(|draft| draft.entry == entry)
    }

    // The card becomes the draft of the entry.
    pub fn draft(&mut self, entry: u16, card: Card) -> Result<(), AllocError> {
        for draft in &mut self.drafts {
            if draft.entry == entry {
                draft.card = card;
                return Ok(());
            }
        }
        self.drafts.push(Draft { entry, card })?;
        Ok(())
    }
}
