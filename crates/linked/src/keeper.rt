//! Versions in lent memory: those of each entry chained newest first, and the free places in a chain of their own.
ghost use Rattle.std.specs.Prelude.{◌≡◌, ℕ, ◌<◌, ◌≤◌, length, drop, Some, None};
ghost use Rattle.std.proofs.Props.{props};
ghost use Rattle.cards.specs.declared.entry.TheConstants.{ENTRIES};
ghost use Rattle.keepers.specs.declared.memory.TheConstants.{MOST_PLACES};
ghost use Rattle.linked.specs.Chain.{Sound, AllFree, used_places, before, free_place, held_place, head_of, place_at, time_at, time_or_zero, led_places, led_heads};

use crate::place::{Content, FreePlaces, Link, Place, link_in};
use cards::entry::{ENTRIES, EntryNumber};
use cards::refusal::Refusal;
use keepers::keeper::Keeper;
use keepers::memory::MOST_PLACES;
use keepers::version::Version;

// The place of each entry's newest version: one for each entry there can be, since a keeper has no heap.
type Heads = [Option<u16>; ENTRIES];

/// A keeper in memory that a host lends it, and of which it has all: it uses the first 65,536 places at most, and allocates nothing. A place
/// leads to another by its number, which has 16 bits.
#[derive(Drop)]
pub struct Linked<'a> {
    places: &'a mut [Place],
    heads: Heads,
    free: FreePlaces,
    held: u32,
    ghost sound: { Sound (used_places places.now) heads free.first free.count held } by { Prim.hlevel props },
}

// Where a walk has come to: the last place that it has left, and the place that it stands at.
#[derive(Clone, Copy)]
struct Reached {
    before: Option<u16>,
    at: Option<u16>,
}

impl<'a> Linked<'a> {
    ghost use Rattle.cards.specs.Versions.{Empty};
    ghost use Rattle.keepers.specs.Memory.{used_of};
    ghost use Rattle.linked.specs.View.{linked_memory, linked_used, linked_rest, linked_kept, linked_places, LinkedWalked};

    /// A keeper of nothing in the first 65,536 places of the memory, or all if it has fewer. The others stay as they were. The memory that it
    /// has is the memory that is lent, whole.
    pub fn new(memory: &'a mut [Place]) -> Linked<'a>
        ensures empty { Empty (linked_kept result) }
        ensures places { linked_places result ≡ used_of (length memory.old) }
        ensures length { length (linked_memory result) ≡ length memory.old }
        ensures rest { linked_rest result ≡ drop MOST_PLACES memory.old }
        ensures front { result.places.ref_ptr ≡ memory.entry.ref_ptr }
        ensures same_reference { result.places.ghost_name ≡ memory.entry.ghost_name }
    {
        let used = memory.len().min(MOST_PLACES);
        let free = free_all(&mut memory[..used]);
        Linked {
            places: memory,
            heads: [None; ENTRIES],
            free,
            held: 0,
        }
    }

    /// Gives the memory back, whole, before its loan ends.
    pub fn into_memory(self) -> &'a mut [Place]
        ensures memory { result.now ≡ linked_memory self.entry }
        ensures same_reference { result.ghost_name ≡ self.entry.places.ghost_name }
    {
        let Linked {
            places,
            heads: _,
            free: _,
            held: _,
        } = self;
        places
    }

    // The places that it uses.
    fn used(&self) -> &[Place]
        ensures { result.now ≡ linked_used self.now }
    {
        &self.places[..self.places.len().min(MOST_PLACES)]
    }

    // The link in a place that holds a version.
    fn link_at(&self, p: u16) -> Link
        requires { 0 < time_at (linked_used self.now) p }
        ensures { held_place result ≡ place_at (linked_used self.now) p }
    {
        link_in(self.used(), p)
    }

    // The time of an entry's newest version, 0 where it has none: no version has time 0, so one test serves both.
    fn head_time(&self, entry: EntryNumber) -> u32
        ensures { result ≡ time_or_zero (linked_used self.now) (head_of self.now.heads entry.number) }
    {
        match self.heads[usize::from(entry)] {
            Some(p) => self.link_at(p).version.time,
            None => 0,
        }
    }

    // The free places that come after the first.
    fn others_at(&self, p: u16) -> FreePlaces
        requires { self.now.free.first ≡ Some p }
        ensures { free_place result.first result.count ≡ place_at (linked_used self.now) p }
    {
        match self.used()[usize::from(p)].content {
            Content::Held(_) => unreachable!(),
            Content::Free(others) => others,
        }
    }

    // Where the versions of an entry that are later than a time end: the last such place, and the place after it.
    fn walk(&self, entry: EntryNumber, time: u32) -> Reached
        ensures walked { LinkedWalked self.now entry.number time result.before result.at }
        ensures until { time_or_zero (linked_used self.now) result.at ≤ time }
    {
        let places = self.used();
        let mut reached = Reached {
            before: None,
            at: self.heads[usize::from(entry)],
        };
        // No index: each step goes where the place before leads.
        while let Some(p) = reached.at {
            let link = link_in(places, p);
            if link.version.time <= time {
                return reached;
            }
            reached = Reached {
                before: Some(p),
                at: link.older,
            };
        }
        reached
    }
}

impl<'a> Keeper for Linked<'a> {
    ghost use Rattle.std.specs.Prelude.{refl, OnErr, is_some};
    ghost use Rattle.std.specs.Bool.{OnFalse};
    ghost use Rattle.keepers.specs.Kept.{add_refusal, added, add_answer, removed};
    ghost use Rattle.std.proofs.Common.{arith};
    ghost use Rattle.std.proofs.lemmas.List.{length-take};
    ghost use Rattle.cards.proofs.Holdings.{holding_lawful};
    ghost use Rattle.keepers.proofs.SetsOf.{set_of_bounded};
    ghost use Rattle.linked.specs.Chain.{empty_place, version_of};
    ghost use Rattle.linked.specs.View.{linked_memory, linked_used, linked_rest, linked_kept, linked_places, linked_means};

    ghost means = { linked_means };

    ghost bounded = { λ s. set_of_bounded version_of empty_place (linked_used s)
        (λ p l. (s.sound.chained.entries p l, s.sound.chained.times p)) };

    ghost verdicts = { λ _. refl };

    ghost lawful = { λ s. holding_lawful (linked_places s) (linked_kept s) };

    ghost places = { λ s. (linked_places s, refl, omega (arith, s.sound.counted, s.sound.total, length-take (linked_places s) (linked_memory s))) };

    fn held(&self) -> u32 {
        self.held
    }

    fn spare(&self) -> u32 {
        self.free.count
    }

    /// As of any keeper; and it leaves the places that are not used, and the loan, as they were.
    fn add(&mut self, version: Version) -> Result<(), Refusal>
        ensures means { linked_means self.new ≡
            added (add_refusal (linked_means self.old) version) (linked_means self.old) version }
        ensures answer { result ≡ add_answer (add_refusal (linked_means self.old) version) }
        ensures same { OnErr result (self.new ≡ self.old) }
        ensures rest { linked_rest self.new ≡ linked_rest self.old }
        ensures same_reference { self.new.places.ghost_name ≡ self.old.places.ghost_name }
    {
        let entry = EntryNumber::try_from(version.entry)?;
        let p = self.free.first.ok_or(Refusal::Full)?;
        if version.time <= self.head_time(entry) {
            return Err(Refusal::Order);
        }
        let others = self.others_at(p);
        let row = usize::from(entry);
        let link = Link {
            version,
            older: self.heads[row],
        };
        let places = &mut *self.places;
        places[usize::from(p)] = Place::held(link);
        self.heads[row] = Some(p);
        self.free = others;
        self.held += 1;
        Ok(())
    }

    fn find(&self, entry: u16, up_to: u32) -> Option<Version> {
        let Ok(entry) = EntryNumber::try_from(entry) else {
            return None;
        };
        let p = self.walk(entry, up_to).at?;
        Some(self.link_at(p).version)
    }

    fn after(&self, entry: u16, time: u32) -> Option<u32> {
        let Ok(entry) = EntryNumber::try_from(entry) else {
            return None;
        };
        let p = self.walk(entry, time).before?;
        Some(self.link_at(p).version.time)
    }

    /// As of any keeper; and it leaves the places that are not used, and the loan, as they were.
    fn remove(&mut self, entry: u16, time: u32) -> bool
        ensures means { linked_means self.new ≡ removed (linked_means self.old) entry time }
        ensures answer { result ≡ is_some (linked_kept self.old entry time) }
        ensures same { OnFalse result (self.new ≡ self.old) }
        ensures rest { linked_rest self.new ≡ linked_rest self.old }
        ensures same_reference { self.new.places.ghost_name ≡ self.old.places.ghost_name }
    {
        let Ok(entry) = EntryNumber::try_from(entry) else {
            return false;
        };
        let reached = self.walk(entry, time);
        let Some(p) = reached.at else {
            return false;
        };
        let link = self.link_at(p);
        if link.version.time != time {
            return false;
        }
        let places = &mut *self.places;
        unlink(places, &mut self.heads, entry, reached.before, link.older);
        places[usize::from(p)] = Place::freed(self.free);
        self.free = FreePlaces {
            first: Some(p),
            count: self.free.count + 1,
        };
        self.held -= 1;
        true
    }
}

// Lets what leads to a place of a chain, the place before it or the entry's head, lead on to the next. No method, since the keeper is not
// sound in between.
fn unlink(
    places: &mut [Place],
    heads: &mut Heads,
    entry: EntryNumber,
    before: Option<u16>,
    next: Option<u16>,
)
    requires { (b : ℕ) → before ≡ Some b → 0 < time_at places.old b }
    ensures places { places.new ≡ led_places places.old before next }
    ensures heads { heads.new ≡ led_heads heads.old entry.number before next }
{
    match before {
        Some(b) => match &mut places[usize::from(b)].content {
            Content::Held(link) => link.older = next,
            Content::Free(_) => unreachable!(),
        },
        None => heads[usize::from(entry)] = next,
    }
}

// Makes every place free, each leading to the one before it, and gives them.
fn free_all(places: &mut [Place]) -> FreePlaces
    requires { length places.old ≤ MOST_PLACES }
    ensures free { AllFree places.new (length places.new) }
    ensures first { result.first ≡ before (length places.old) }
    ensures count { result.count ≡ length places.old }
{
    let mut free = FreePlaces::default();
    for place in places {
        *place = Place::freed(free);
        // A place's number is how many come before it, and all of those are free.
        free = FreePlaces {
            first: Some(free.count as u16),
            count: free.count + 1,
        };
    }
    free
}
