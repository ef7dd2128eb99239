//! Versions in their order of arrival, in the front of memory that is lent.
ghost use Rattle.std.proofs.Props.{props};
ghost use Rattle.roll.specs.Arrivals.{Rolled};
ghost use Rattle.roll.specs.Searches.{First};

use cards::entry::EntryNumber;
use cards::refusal::Refusal;
use keepers::keeper::Keeper;
use keepers::memory::MOST_PLACES;
use keepers::search::last_match;
use keepers::version::Version;

/// A keeper over lent memory, of which it uses the first 65,536 places at most. The first places, `held` of them, hold a version each; the
/// others are as they were lent or left. The host has its memory back, all of it, where the loan ends.
#[derive(Drop)]
pub struct Roll<'a> {
    pub(crate) places: &'a mut [Version],
    pub(crate) held: usize,
    ghost sound: { Rolled places.now held } by { Prim.hlevel props },
}

// The first time of an entry above a time: in order of arrival that is the least one.
fn first_after(versions: &[Version], entry: u16, time: u32) -> Option<u32>
    ensures { First entry time versions.now result }
{
    versions
        .iter()
        .find(|version| version.entry == entry && version.time > time)
        .map(|version| version.time)
}

impl<'a> Roll<'a> {
    ghost use Rattle.std.specs.Prelude.{◌≡◌, ◌<◌, [], ◌∷◌, ◌++◌, length};
    ghost use Rattle.std.specs.List.{remove};
    ghost use Rattle.cards.specs.Versions.{Empty, newest_time};
    ghost use Rattle.keepers.specs.Memory.{used_of};
    ghost use Rattle.roll.specs.Arrivals.{Proper};
    ghost use Rattle.roll.specs.Searches.{Placed};
    ghost use Rattle.roll.specs.View.{roll_memory, roll_front, roll_kept, roll_places, KeptBehind};

    /// A keeper of no version, over this memory or its first 65,536 places. Nothing is written: the memory that it has is the memory that is
    /// lent, as it was.
    pub fn new(memory: &'a mut [Version]) -> Roll<'a>
        ensures empty { Empty (roll_kept result) }
        ensures places { roll_places result ≡ used_of (length memory.old) }
        ensures memory { roll_memory result ≡ memory.old }
        ensures same_reference { result.places.ghost_name ≡ memory.entry.ghost_name }
    {
        Roll {
            places: memory,
            held: 0,
        }
    }

    /// Gives the memory back, all of it, before its loan ends: the versions that are held stand first, in their order of arrival.
    pub fn into_memory(self) -> &'a mut [Version]
        ensures memory { result.now ≡ roll_memory self.entry }
        ensures same_reference { result.ghost_name ≡ self.entry.places.ghost_name }
    {
        let Roll { places, held: _ } = self;
        places
    }

    // The versions that are held.
    fn front(&self) -> &[Version]
        ensures { result.now ≡ roll_front self.now }
    {
        &self.places[..self.held]
    }

    // The place of an entry's version at a time.
    fn place_of(&self, entry: u16, time: u32) -> Option<usize>
        ensures { Placed entry time (roll_front self.now) result }
    {
        let versions = self.front();
        last_match(versions, entry, time).filter(|at| versions[*at].time == time)
    }

    // The newest time of an entry, 0 where it has no version: no version has time 0, so one test serves both.
    fn newest_time(&self, entry: u16) -> u32
        ensures { result ≡ newest_time (roll_kept self.now) entry }
    {
        self.find(entry, u32::MAX).map_or(0, |newest| newest.time)
    }

    // Puts a version behind the others.
    fn push(&mut self, version: Version)
        requires spare { self.old.held < roll_places self.old }
        requires proper { Proper version }
        requires late { newest_time (roll_kept self.old) version.entry < version.time }
        ensures front { roll_front self.new ≡ roll_front self.old ++ version ∷ [] }
        ensures places { roll_places self.new ≡ roll_places self.old }
        ensures behind { KeptBehind self.new.held self.old self.new }
        ensures same_reference { self.new.places.ghost_name ≡ self.old.places.ghost_name }
    {
        let places = &mut *self.places;
        places[self.held] = version;
        self.held += 1;
    }

    // Takes the version at a place out, and moves those behind it one place down.
    #[tactic(auto, using(crate::proofs::Gaps::rolled_less, crate::proofs::Gaps::front_closed))]
    fn take_out(&mut self, at: usize)
        requires { at < self.old.held }
        ensures front { roll_front self.new ≡ remove (roll_front self.old) at }
        ensures places { roll_places self.new ≡ roll_places self.old }
        ensures behind { KeptBehind self.new.held self.old self.new }
        ensures same_reference { self.new.places.ghost_name ≡ self.old.places.ghost_name }
    {
        let places = &mut *self.places;
        places.copy_within(at + 1..self.held, at);
        self.held -= 1;
    }
}

impl<'a> Keeper for Roll<'a> {
    ghost use Rattle.std.specs.Prelude.{◌≡◌, refl, OnErr, is_some};
    ghost use Rattle.std.specs.Bool.{OnFalse};
    ghost use Rattle.keepers.specs.Kept.{add_refusal, added, add_answer, removed};
    ghost use Rattle.std.proofs.Common.{arith};
    ghost use Rattle.cards.proofs.Holdings.{holding_lawful};
    ghost use Rattle.keepers.specs.SetOf.{no_version};
    ghost use Rattle.keepers.proofs.SetsOf.{filled_in, set_of_bounded};
    ghost use Rattle.roll.specs.View.{roll_front, roll_kept, roll_places, roll_means, KeptBehind};

    ghost means = { roll_means };

    ghost bounded = { λ s. set_of_bounded (λ v. v) no_version (roll_front s)
        (λ p l. let z = s.sound.arrived.each p no_version (filled_in (λ v. v) no_version (roll_front s) p refl l) in (z.0, z.2)) };

    ghost verdicts = { λ s. refl };

    ghost lawful = { λ s. holding_lawful (roll_places s) (roll_kept s) };

    ghost places = { λ s. (roll_places s, refl, omega (arith, s.sound.within, s.sound.few, s.sound.counted)) };

    fn held(&self) -> u32 {
        self.held as u32
    }

    fn spare(&self) -> u32 {
        // As in `held`.
        (self.places.len().min(MOST_PLACES) - self.held) as u32
    }

    /// As of any keeper; and it leaves the places behind the versions, and the loan, as they were.
    fn add(&mut self, version: Version) -> Result<(), Refusal>
        ensures means { roll_means self.new ≡
            added (add_refusal (roll_means self.old) version) (roll_means self.old) version }
        ensures answer { result ≡ add_answer (add_refusal (roll_means self.old) version) }
        ensures same { OnErr result (self.new ≡ self.old) }
        ensures behind { KeptBehind self.new.held self.old self.new }
        ensures same_reference { self.new.places.ghost_name ≡ self.old.places.ghost_name }
    {
        // Only tested: a roll has nothing for each entry.
        EntryNumber::try_from(version.entry)?;
        if self.spare() == 0 {
            return Err(Refusal::Full);
        }
        if version.time <= self.newest_time(version.entry) {
            return Err(Refusal::Order);
        }
        self.push(version);
        Ok(())
    }

    fn find(&self, entry: u16, up_to: u32) -> Option<Version> {
        let versions = self.front();
        last_match(versions, entry, up_to).map(|at| versions[at])
    }

    #[tactic(auto, using(crate::proofs::Meanings::next_first))]
    fn after(&self, entry: u16, time: u32) -> Option<u32> {
        first_after(self.front(), entry, time)
    }

    /// As of any keeper; and it leaves the places behind the versions, and the loan, as they were.
    fn remove(&mut self, entry: u16, time: u32) -> bool
        ensures means { roll_means self.new ≡ removed (roll_means self.old) entry time }
        ensures answer { result ≡ is_some (roll_kept self.old entry time) }
        ensures same { OnFalse result (self.new ≡ self.old) }
        ensures behind { KeptBehind self.new.held self.old self.new }
        ensures same_reference { self.new.places.ghost_name ≡ self.old.places.ghost_name }
    {
        let Some(at) = self.place_of(entry, time) else {
            return false;
        };
        self.take_out(at);
        true
    }
}
