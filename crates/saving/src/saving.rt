//! An edit of one draft, from its lock to its time. Each step hands on what is declined, with the ticket that is left.
ghost use Rattle.std.specs.Prelude.{◌≡◌};
ghost use Rattle.saving.specs.Saved.{settled, put_settled, stamp_settled, saved, told, settle_or_left, put_or_left, stamp_or_left, save_or_left};
ghost use Rattle.store.specs.View.{view};
ghost use Rattle.tickets.specs.Given.{named};

use crate::unsaved::Unsaved;
use keepers::keeper::Keeper;
use store::Store;
use tickets::edit::EditTicket;
use tickets::locked::LockedTicket;
use tickets::stamped::StampedTicket;

// Settles an edit that is put.
#[tactic(auto, using(crate::proofs::Whys::whys))]
fn settle_put<K: Keeper>(store: &mut Store<K>, ticket: StampedTicket) -> Result<u32, Unsaved>
    ensures state { view K.means store.new ≡ (settled (named ticket) (view K.means store.old)).0 }
    ensures answer { told result ≡ (settled (named ticket) (view K.means store.old)).1 }
    ensures left { result ≡ settle_or_left (view K.means store.old) ticket }
{
    Ok(ticket.settle(store)?)
}

// Puts the draft of a stamped edit first.
#[tactic(auto, using(crate::proofs::Whys::whys), unfolding(crate::specs::Saved::put_settled, crate::specs::Saved::put_or_left))]
fn settle_stamped<K: Keeper>(store: &mut Store<K>, ticket: StampedTicket) -> Result<u32, Unsaved>
    ensures state { view K.means store.new ≡
        (put_settled (named ticket) (view K.means store.old)).0 }
    ensures answer { told result ≡ (put_settled (named ticket) (view K.means store.old)).1 }
    ensures left { result ≡ put_or_left (view K.means store.old) ticket }
{
    let (_left, ticket) = ticket.put(store)?;
    settle_put(store, ticket)
}

// Stamps a locked edit first.
#[tactic(auto, using(crate::proofs::Whys::whys), unfolding(crate::specs::Saved::stamp_settled, crate::specs::Saved::stamp_or_left))]
fn settle_locked<K: Keeper>(store: &mut Store<K>, ticket: LockedTicket) -> Result<u32, Unsaved>
    ensures state { view K.means store.new ≡
        (stamp_settled ticket.seat (view K.means store.old)).0 }
    ensures answer { told result ≡ (stamp_settled ticket.seat (view K.means store.old)).1 }
    ensures left { result ≡ stamp_or_left (view K.means store.old) ticket }
{
    let (_time, ticket) = ticket.stamp(store)?;
    settle_stamped(store, ticket)
}

/// Saves an open edit of one draft: locks, stamps, puts and settles it, and answers its time.
///
/// The first of these calls that is declined is the last, and tells why, with the ticket that is left. Of an edit without drafts that is the
/// put, by `Stage`, of one with more than one draft the settle, by `Unput`.
#[tactic(auto, using(crate::proofs::Whys::whys), unfolding(crate::specs::Saved::saved, crate::specs::Saved::save_or_left))]
pub fn save_one<K: Keeper>(store: &mut Store<K>, ticket: EditTicket) -> Result<u32, Unsaved>
    ensures state { view K.means store.new ≡ (saved ticket.seat (view K.means store.old)).0 }
    ensures answer { told result ≡ (saved ticket.seat (view K.means store.old)).1 }
    ensures left { result ≡ save_or_left (view K.means store.old) ticket }
{
    let (_count, ticket) = ticket.lock(store)?;
    settle_locked(store, ticket)
}
