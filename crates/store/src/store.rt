// The interface of stores.
ghost use Rattle.std.specs.Prelude.{◌≡◌, length};
ghost use Rattle.std.specs.List.{slice_get};
ghost use Rattle.contents.specs.Entries.{none};
ghost use Rattle.store.specs.Meaning.{Meaning, Sound, Put, Take, Set, Removed, run_at, first_in, last_in, next_in, previous_in, Windows};

use crate::refusal::Refusal;
use keys::{Key, Place};

// A store holds a run of values at each place.
pub trait Store {
    type Key: Key;

    type Value: Copy + Drop;

    ghost meaning: { Self → Meaning Self.Key Self.Value };

    // Puts a value in at an offset of the run at a place, making the place if it is absent.
    fn put(
        &mut self,
        place: &Place<Self::Key>,
        offset: u64,
        value: Self::Value,
    ) -> Result<(), Refusal>
        ensures { Put Self.Key.cmp (meaning self.old) (meaning self.new) place.now offset value result };

    // Takes a value out, and answers it.
    fn take(&mut self, place: &Place<Self::Key>, offset: u64) -> Result<Self::Value, Refusal>
        ensures { Take Self.Key.cmp (meaning self.old) (meaning self.new) place.now offset result };

    // Replaces a value.
    fn set(
        &mut self,
        place: &Place<Self::Key>,
        offset: u64,
        value: Self::Value,
    ) -> Result<(), Refusal>
        ensures { Set Self.Key.cmp (meaning self.old) (meaning self.new) place.now offset value result };

    // Removes the run at a place; an absent run is no fault.
    fn remove_run(&mut self, place: &Place<Self::Key>)
        ensures { Removed Self.Key.cmp (meaning self.old) (meaning self.new) place.now }
    {
        while self.run_len(place) > 0 {
            let _ = self.take(place, 0);
        }
    }

    // How many values the run at a place has.
    fn run_len(&self, place: &Place<Self::Key>) -> u64
        ensures { result ≡ length (run_at Self.Key.cmp (meaning self.now) place.now) };

    // The value at an offset of the run at a place.
    fn value_at(&self, place: &Place<Self::Key>, offset: u64) -> Option<Self::Value>
        ensures { result ≡ slice_get (run_at Self.Key.cmp (meaning self.now) place.now) offset };

    // The least place of a partition.
    fn first_in(&self, partition: u64) -> Option<Place<Self::Key>>
        ensures { result ≡ first_in Self.Key.cmp (meaning self.now) partition };

    // The greatest place of a partition.
    fn last_in(&self, partition: u64) -> Option<Place<Self::Key>>
        ensures { result ≡ last_in Self.Key.cmp (meaning self.now) partition };

    // The least place after a place, in its partition.
    fn next_in(&self, place: &Place<Self::Key>) -> Option<Place<Self::Key>>
        ensures { result ≡ next_in Self.Key.cmp (meaning self.now) place.now };

    // The greatest place before a place, in its partition.
    fn previous_in(&self, place: &Place<Self::Key>) -> Option<Place<Self::Key>>
        ensures { result ≡ previous_in Self.Key.cmp (meaning self.now) place.now };

    // How many values more a partition can take.
    fn space(&self, partition: u64) -> u64
        ensures { result ≡ (meaning self.now).space partition };

    // How many partitions there are; their numbers are below.
    fn partition_count(&self) -> u64
        ensures { result ≡ (meaning self.now).partitions };

    // How many values the store takes for sure.
    fn assured_number(&self) -> u64
        ensures { result ≡ (meaning self.now).assured };

    // Whether no value is held.
    fn is_empty(&self) -> bool
        ensures { result ≡ none (meaning self.now).contents };

    // What holds of every store.
    ghost sound: { (s : Self) → Sound Self.Key.cmp (meaning s) };
}

// A store whose partitions have a window of cells each: as many as its assured number.
pub trait Windowed: Store {
    // The cells of a window.
    fn window(&self) -> u64
        ensures { result ≡ (Self.Store.meaning self.now).assured }
    {
        self.assured_number()
    }

    // Each partition's space and values make a window.
    ghost windows: { (s : Self) → Windows (Self.Store.meaning s) };
}
