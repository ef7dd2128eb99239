//! A place for one version.
ghost use Rattle.std.specs.Prelude.{◌≡◌, ◌<◌};
ghost use Rattle.linked.specs.Chain.{empty_place, held_place, free_place, place_at, time_at};

use keepers::version::Version;

// A version, and the place of its entry's next older one. The version comes last: so fewer places have what is written of it lie across two
// pages of memory, which is slow.
#[derive(Clone, Copy)]
pub(crate) struct Link {
    pub(crate) older: Option<u16>,
    pub(crate) version: Version,
}

// Free places: the first of them, and how many there are.
#[derive(Clone, Copy, Default)]
pub(crate) struct FreePlaces {
    pub(crate) first: Option<u16>,
    pub(crate) count: u32,
}

// What a place holds: a link of its entry's chain, or no version but the free places that come after it.
#[derive(Clone, Copy)]
pub(crate) enum Content {
    Held(Link),
    Free(FreePlaces),
}

/// A place of the memory that a host lends. What is in it is the keeper's alone.
#[derive(Clone, Copy)]
pub struct Place {
    pub(crate) content: Content,
}

impl Place {
    /// A place that holds no version, of which a host makes memory, as in `[Place::empty(); 8]`.
    pub fn empty() -> Place
        ensures { result ≡ empty_place }
    {
        Place::freed(FreePlaces::default())
    }

    // A place that holds a version.
    pub(crate) fn held(link: Link) -> Place
        ensures { result ≡ held_place link }
    {
        Place {
            content: Content::Held(link),
        }
    }

    // A free place, put before the others.
    pub(crate) fn freed(others: FreePlaces) -> Place
        ensures { result ≡ free_place others.first others.count }
    {
        Place {
            content: Content::Free(others),
        }
    }
}

impl Default for Place {
    fn default() -> Place {
        Place::empty()
    }
}

// The link in a place that holds a version. It takes the places, so that a walk asks once where they lie.
pub(crate) fn link_in(places: &[Place], p: u16) -> Link
    requires { 0 < time_at places.now p }
    ensures { held_place result ≡ place_at places.now p }
{
    match places[usize::from(p)].content {
        Content::Held(link) => link,
        Content::Free(_) => unreachable!(),
    }
}
