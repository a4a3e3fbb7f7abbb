// A pile: windows, and a side that takes over a partition whose window is full.
#![tactic(auto)]

ghost use Rattle.std.specs.Prelude.{◌≡◌, true};
ghost use Rattle.joint.specs.Piled.{opened, Apiece};

use keys::Place;
use moves::{move_partition, put_sure};
use store::{Refusal, Store, Windowed};

// Windows and a side, held by value; a pile that is not live has no partitions.
#[derive(Drop)]
pub struct Pile<W: Windowed, S: Store<Key = W::Key, Value = W::Value>> {
    windows: W,
    side: S,
    spills: u64,
    live: bool,
    ghost apiece: { live ≡ true → Apiece (W.Store.meaning windows) (S.Store.meaning side) },
}

// Where the calls at a partition go.
enum Home {
    Void,
    Window,
    Side,
}

impl<W: Windowed, S: Store<Key = W::Key, Value = W::Value>> Pile<W, S> {
    ghost use Rattle.std.specs.Prelude.{◌+◌, ◌%◌, ◌^◌, ◌<◌, ◌≤◌};
    ghost use Rattle.store.specs.Meaning.{Put, values_in};
    ghost use Rattle.moves.specs.Moving.{Moved};
    ghost use Rattle.pile.specs.Piles.{live_meaning, LivePile, HomeIs, Spills};

    // A pile over two stores: live where both are empty and have equally many partitions.
    pub fn open(windows: W, side: S) -> Pile<W, S>
        ensures holds { (result.windows ≡ windows) × (result.side ≡ side) }
        ensures spills { result.spills ≡ 0 }
        ensures live { result.live ≡ opened (W.Store.meaning windows) (S.Store.meaning side) }
    {
        let live = windows.is_empty()
            && side.is_empty()
            && windows.partition_count() == side.partition_count();
        Pile {
            windows,
            side,
            spills: 0,
            live,
        }
    }

    // How many times a partition was moved to the side, modulo 2^64.
    pub fn spills(&self) -> u64
        ensures { result ≡ self.now.spills }
    {
        self.spills
    }

    // Where the calls at a partition go: to the side where it has a value there.
    fn home_of(&self, partition: u64) -> Home
        ensures { HomeIs self.now partition result }
    {
        if !self.live {
            return Home::Void;
        }
        match self.side.first_in(partition) {
            Some(_) => Home::Side,
            None => Home::Window,
        }
    }

    // The space of a partition that is in the windows: what its window has left, or what the side would have left after a move.
    fn space_moved(&self, partition: u64) -> u64
        requires live { LivePile self.now }
        requires apart { values_in (S.Store.meaning self.now.side) partition ≡ 0 }
        ensures { result ≡ (live_meaning self.now).space partition }
    {
        let window = self.windows.space(partition);
        let used = self.windows.window() - window;
        let side = self.side.space(partition).saturating_sub(used);
        side.max(window)
    }

    // Moves a partition to the side, and counts that.
    fn spill(&mut self, partition: u64)
        requires apart { values_in (S.Store.meaning self.old.side) partition ≡ 0 }
        requires roomy { values_in (W.Store.meaning self.old.windows) partition ≤ (S.Store.meaning self.old.side).space partition }
        ensures lives { self.new.live ≡ self.old.live }
        ensures moved { Moved W.Key.cmp (W.Store.meaning self.old.windows) (S.Store.meaning self.old.side) (W.Store.meaning self.new.windows) (S.Store.meaning self.new.side) partition }
        ensures counted { self.new.spills ≡ (self.old.spills + 1) % 2 ^ 64 }
    {
        move_partition(&mut self.windows, &mut self.side, partition);
        self.spills = self.spills.wrapping_add(1);
    }

    // A put at a partition whose window has space; where that fills the window and the side has space for all of it, the partition is moved.
    fn put_window(
        &mut self,
        place: &Place<W::Key>,
        offset: u64,
        value: W::Value,
    ) -> Result<(), Refusal>
        requires live { LivePile self.old }
        requires apart { values_in (S.Store.meaning self.old.side) place.now.partition ≡ 0 }
        requires roomy { 0 < (W.Store.meaning self.old.windows).space place.now.partition }
        ensures lives { self.new.live ≡ self.old.live }
        ensures does { Put W.Key.cmp (live_meaning self.old) (live_meaning self.new) place.now offset value result }
        ensures counted { Spills self.old self.new place.now.partition result }
    {
        self.windows.put(place, offset, value)?;
        if self.windows.space(place.partition) == 0
            && self.side.space(place.partition) >= self.windows.window()
        {
            self.spill(place.partition);
        }
        Ok(())
    }

    // A put at a partition whose window is full: it goes to the side, and the partition with it.
    fn put_full(
        &mut self,
        place: &Place<W::Key>,
        offset: u64,
        value: W::Value,
    ) -> Result<(), Refusal>
        requires live { LivePile self.old }
        requires apart { values_in (S.Store.meaning self.old.side) place.now.partition ≡ 0 }
        requires full { (W.Store.meaning self.old.windows).space place.now.partition ≡ 0 }
        ensures lives { self.new.live ≡ self.old.live }
        ensures does { Put W.Key.cmp (live_meaning self.old) (live_meaning self.new) place.now offset value result }
        ensures counted { Spills self.old self.new place.now.partition result }
    {
        if self.side.space(place.partition) <= self.windows.window() {
            return Err(Refusal::NoSpace);
        }
        if self.windows.run_len(place) < offset {
            return Err(Refusal::PastEnd);
        }
        self.spill(place.partition);
        put_sure(&mut self.side, place, offset, value);
        Ok(())
    }
}

impl<W: Windowed, S: Store<Key = W::Key, Value = W::Value>> Store for Pile<W, S> {
    ghost use Rattle.store.specs.Meaning.{Put, Take, Set, Removed};
    ghost use Rattle.pile.specs.Piles.{pile_meaning, pile_sound, Spills};

    type Key = W::Key;

    type Value = W::Value;

    ghost meaning = { pile_meaning };

    ghost sound = { pile_sound W.Key.lawful W.Store.sound W.Windowed.windows S.Store.sound };

    // A put, with the rule by which it moves a partition.
    fn put(&mut self, place: &Place<W::Key>, offset: u64, value: W::Value) -> Result<(), Refusal>
        ensures does { Put W.Key.cmp (pile_meaning self.old) (pile_meaning self.new) place.now offset value result }
        ensures counted { Spills self.old self.new place.now.partition result }
    {
        match self.home_of(place.partition) {
            Home::Void => Err(Refusal::NoSpace),
            Home::Window => {
                if self.windows.space(place.partition) > 0 {
                    self.put_window(place, offset, value)
                } else {
                    self.put_full(place, offset, value)
                }
            }
            Home::Side => self.side.put(place, offset, value),
        }
    }

    // Takes a value out of the store that has the partition, and answers it.
    fn take(&mut self, place: &Place<W::Key>, offset: u64) -> Result<W::Value, Refusal>
        ensures does { Take W.Key.cmp (pile_meaning self.old) (pile_meaning self.new) place.now offset result }
        ensures same { self.new.spills ≡ self.old.spills }
    {
        match self.home_of(place.partition) {
            Home::Void => Err(Refusal::PastEnd),
            Home::Window => self.windows.take(place, offset),
            Home::Side => self.side.take(place, offset),
        }
    }

    // Replaces a value in the store that has the partition.
    fn set(&mut self, place: &Place<W::Key>, offset: u64, value: W::Value) -> Result<(), Refusal>
        ensures does { Set W.Key.cmp (pile_meaning self.old) (pile_meaning self.new) place.now offset value result }
        ensures same { self.new.spills ≡ self.old.spills }
    {
        match self.home_of(place.partition) {
            Home::Void => Err(Refusal::PastEnd),
            Home::Window => self.windows.set(place, offset, value),
            Home::Side => self.side.set(place, offset, value),
        }
    }

    // Removes the run at a place from the store that has its partition.
    fn remove_run(&mut self, place: &Place<W::Key>)
        ensures does { Removed W.Key.cmp (pile_meaning self.old) (pile_meaning self.new) place.now }
        ensures same { self.new.spills ≡ self.old.spills }
    {
        match self.home_of(place.partition) {
            Home::Void => {}
            Home::Window => self.windows.remove_run(place),
            Home::Side => self.side.remove_run(place),
        }
    }

    // How many values the run at a place has.
    fn run_len(&self, place: &Place<W::Key>) -> u64 {
        match self.home_of(place.partition) {
            Home::Void => 0,
            Home::Window => self.windows.run_len(place),
            Home::Side => self.side.run_len(place),
        }
    }

    // The value at an offset of the run at a place.
    fn value_at(&self, place: &Place<W::Key>, offset: u64) -> Option<W::Value> {
        match self.home_of(place.partition) {
            Home::Void => None,
            Home::Window => self.windows.value_at(place, offset),
            Home::Side => self.side.value_at(place, offset),
        }
    }

    // The least place of a partition.
    fn first_in(&self, partition: u64) -> Option<Place<W::Key>> {
        match self.home_of(partition) {
            Home::Void => None,
            Home::Window => self.windows.first_in(partition),
            Home::Side => self.side.first_in(partition),
        }
    }

    // The greatest place of a partition.
    fn last_in(&self, partition: u64) -> Option<Place<W::Key>> {
        match self.home_of(partition) {
            Home::Void => None,
            Home::Window => self.windows.last_in(partition),
            Home::Side => self.side.last_in(partition),
        }
    }

    // The least place after a place, in its partition.
    fn next_in(&self, place: &Place<W::Key>) -> Option<Place<W::Key>> {
        match self.home_of(place.partition) {
            Home::Void => None,
            Home::Window => self.windows.next_in(place),
            Home::Side => self.side.next_in(place),
        }
    }

    // The greatest place before a place, in its partition.
    fn previous_in(&self, place: &Place<W::Key>) -> Option<Place<W::Key>> {
        match self.home_of(place.partition) {
            Home::Void => None,
            Home::Window => self.windows.previous_in(place),
            Home::Side => self.side.previous_in(place),
        }
    }

    // How many values more a partition can take.
    fn space(&self, partition: u64) -> u64 {
        match self.home_of(partition) {
            Home::Void => 0,
            Home::Window => self.space_moved(partition),
            Home::Side => self.side.space(partition),
        }
    }

    // How many partitions there are: as many as the side has.
    fn partition_count(&self) -> u64 {
        if self.live {
            self.side.partition_count()
        } else {
            0
        }
    }

    // How many values the pile takes for sure: as many as the side does.
    fn assured_number(&self) -> u64 {
        if self.live {
            self.side.assured_number()
        } else {
            0
        }
    }

    // Whether neither store holds a value.
    fn is_empty(&self) -> bool {
        !self.live || self.windows.is_empty() && self.side.is_empty()
    }
}
