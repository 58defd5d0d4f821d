//! What the records say that have been read.

ghost use Rattle.std.specs.Prelude.{◌≡◌, ◌<◌, ◌≤◌, ◌++◌, ◌∷◌, [], ℕ, List, false, length, map, OnOk, Some, slice_get};
ghost use Rattle.std.specs.Option.{option_copied};
ghost use Rattle.crp_yard.specs.Faults.{max_containers, is_taken, is_named};
ghost use Rattle.crp_yard.specs.Inventory.{container_at, times};
ghost use Rattle.crp_yard.specs.Listings.{entry_names};

use crate::place::Place;
use indexmap::IndexSet;
use std::alloc::{AllocError, Global};
use std::marker::Model;

/// The places of the records and their containers, each a set in the order of the records. So the container
/// of a place has its number.
#[derive(Drop)]
pub(crate) struct Listing {
    places: IndexSet<Place>,
    names: IndexSet<Vec<u8>>,
}

impl Model for Listing {
    ghost use Rattle.std.specs.Prelude.{List};
    ghost use Rattle.crp_yard.specs.Records.{Entry};
    ghost use Rattle.crp_yard.specs.Listings.{entries_listed, IsListing};

    ghost Value = { List Entry };

    ghost view = { λ a. entries_listed a.places.keys a.names.keys };

    ghost invariant = { λ a. IsListing a.places.keys a.names.keys };
}

impl Listing {
    pub fn new(alloc: Global) -> Listing
        ensures { result ≡ [] }
    {
        Listing {
            places: IndexSet::new(alloc),
            names: IndexSet::new(alloc),
        }
    }

    /// How many containers there are.
    pub fn len(&self) -> usize
        ensures value { result ≡ length self.now }
        ensures few { length self.now ≤ max_containers }
    {
        self.names.len()
    }

    /// The container at the place.
    pub fn container_at(&self, place: &Place) -> Option<&[u8]>
        ensures { option_copied result ≡ container_at self.now place.now }
    {
        match self.places.get_index_of(place) {
            Some(i) => match self.names.get_index(i) {
                Some(name) => Some(name.as_slice()),
                None => None,
            },
            None => None,
        }
    }

    /// A record names the place.
    pub fn is_taken(&self, place: &Place) -> bool
        ensures { result ≡ is_taken self.now place.now }
    {
        self.places.contains(place)
    }

    /// A record names the container.
    pub fn is_named(&self, container: &[u8]) -> bool
        ensures { result ≡ is_named self.now container.now }
    {
        self.names.contains(container)
    }

    /// The place of the entry with this number, from 0.
    pub fn place(&self, i: usize) -> &Place
        requires { i < length self.now }
        ensures { (container : List ℕ) × (slice_get self.now i ≡ Some (result.now, container)) }
    {
        match self.places.get_index(i) {
            Some(place) => place,
            None => unreachable!(),
        }
    }

    /// Takes an entry more.
    pub fn push(&mut self, alloc: Global, place: Place, container: &[u8]) -> Result<(), AllocError>
        requires free { is_taken self.old place ≡ false }
        requires fresh { is_named self.old container.now ≡ false }
        requires room { length self.old < max_containers }
        ensures { OnOk result (self.new ≡ self.old ++ (place, container.now) ∷ []) }
    {
        let name = Vec::from_slice(alloc, container)?;
        self.places.reserve(1)?;
        self.names.insert(name)?;
        self.places.insert(place)?;
        Ok(())
    }

    /// The set of the containers.
    pub fn into_names(self) -> IndexSet<Vec<u8>>
        ensures names { map (λ name. name.items) result.keys ≡ entry_names self }
        ensures once { (container : List ℕ) → times container (entry_names self) ≤ 1 }
    {
        let Listing { places: _, names } = self;
        names
    }
}
