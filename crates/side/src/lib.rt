// The side-table: a sorted array of places with a value beside each, over memory handed in.
#![tactic(auto)]

mod cells;

ghost use Rattle.std.specs.Prelude.{◌≡◌, ◌-◌, length, take};
ghost use Rattle.contents.specs.Entries.{places};
ghost use Rattle.side.specs.Table.{Sorts, opened, place_at};

use crate::cells::{insert, remove, take};
use arrays::{Keys, Runs};
use keys::{Key, Place};
use std::ops::Range;
use store::{Refusal, Store};

// The most cells that a table uses.
pub const CELLS: usize = 65536;

// Places and values alongside, in rising order of the places: the first `len` of `cells` are in use.
#[derive(Drop)]
pub struct SideTable<'a, K: Key, V> {
    keys: &'a mut [Place<K>],
    values: &'a mut [V],
    cells: usize,
    len: usize,
    partitions: u64,
    ghost sorts: { Sorts K.cmp keys.now values.now cells len partitions },
}

impl<'a, K: Key, V: Copy + Drop> SideTable<'a, K, V> {
    ghost use Rattle.store.specs.Meaning.{run_at};
    ghost use Rattle.side.specs.Tables.{table_meaning, Ranges, PutSlot, HeldSlot};

    // An empty table, whatever the cells hold; a void one where they do not fit. The cells are left as they are.
    pub fn open(
        keys: &'a mut [Place<K>],
        values: &'a mut [V],
        partitions: u64,
    ) -> SideTable<'a, K, V>
        ensures meaning { table_meaning result ≡ opened (length keys.old) (length values.old) partitions }
        ensures memory { (result.keys.now ≡ keys.old) × (result.values.now ≡ values.old) }
    {
        let cells = keys.len();
        let fit = cells == values.len() && cells <= CELLS;
        let (cells, partitions) = if fit { (cells, partitions) } else { (0, 0) };
        SideTable {
            keys,
            values,
            cells,
            len: 0,
            partitions,
        }
    }

    // The places in use.
    fn places(&self) -> &[Place<K>]
        ensures { result.now ≡ places (table_meaning self.now).contents }
    {
        &self.keys[..self.len]
    }

    // The same, to be searched.
    fn sorted(&self) -> Keys<'_, Place<K>>
        ensures { result.keys.now ≡ places (table_meaning self.now).contents }
    {
        Keys::new(self.places())
    }

    // The place at `idx`, if there is one and it is in `partition`.
    fn place_in(&self, idx: usize, partition: u64) -> Option<Place<K>>
        ensures { result ≡ place_at partition idx (places (table_meaning self.now).contents) }
    {
        let place = self.places().get(idx).copied();
        place.filter(|p| p.partition == partition)
    }

    // The place before `idx`, if there is one and it is in `partition`.
    fn place_before(&self, idx: usize, partition: u64) -> Option<Place<K>>
        ensures { result ≡ place_at partition (idx - 1) (take idx (places (table_meaning self.now).contents)) }
    {
        self.place_in(idx.checked_sub(1)?, partition)
    }

    // Where the run at `place` stands.
    fn range(&self, place: &Place<K>) -> Range<usize>
        ensures { Ranges K.cmp self.now place.now result.start result.end }
    {
        self.sorted().run_range(place)
    }

    // The run at `place`, as the part of the values itself.
    pub fn run(&self, place: &Place<K>) -> &[V]
        ensures { result.now ≡ run_at K.cmp (table_meaning self.now) place.now }
    {
        Runs::new(&self.keys[..self.len], &self.values[..self.len]).values(place)
    }

    // The cell that a value put at `offset` of the run at `place` goes to.
    fn put_slot(&self, place: &Place<K>, offset: u64) -> Result<usize, Refusal>
        ensures { PutSlot K.cmp self.now place.now offset result }
    {
        if place.partition >= self.partitions || self.len == self.cells {
            return Err(Refusal::NoSpace);
        }
        let run = self.range(place);
        if offset > run.len() as u64 {
            return Err(Refusal::PastEnd);
        }
        Ok(run.start + offset as usize)
    }

    // The cell that holds the value at `offset` of the run at `place`.
    fn held_slot(&self, place: &Place<K>, offset: u64) -> Result<usize, Refusal>
        ensures { HeldSlot K.cmp self.now place.now offset result }
    {
        let run = self.range(place);
        if offset >= run.len() as u64 {
            return Err(Refusal::PastEnd);
        }
        Ok(run.start + offset as usize)
    }
}

impl<'a, K: Key, V: Copy + Drop> Store for SideTable<'a, K, V> {
    ghost use Rattle.side.specs.Tables.{table_meaning, table_sound};

    type Key = K;

    type Value = V;

    ghost meaning = { table_meaning };

    ghost sound = { table_sound };

    fn put(&mut self, place: &Place<K>, offset: u64, value: V) -> Result<(), Refusal> {
        let at = self.put_slot(place, offset)?;
        insert(self.keys, self.values, &mut self.len, at, *place, value);
        Ok(())
    }

    fn take(&mut self, place: &Place<K>, offset: u64) -> Result<V, Refusal> {
        let at = self.held_slot(place, offset)?;
        let value = self.values[at];
        take(self.keys, self.values, &mut self.len, at);
        Ok(value)
    }

    fn set(&mut self, place: &Place<K>, offset: u64, value: V) -> Result<(), Refusal> {
        let at = self.held_slot(place, offset)?;
        self.values[at] = value;
        Ok(())
    }

    // One removal from each array, however long the run.
    fn remove_run(&mut self, place: &Place<K>) {
        let run = self.range(place);
        remove(self.keys, self.values, &mut self.len, run);
    }

    fn run_len(&self, place: &Place<K>) -> u64 {
        self.range(place).len() as u64
    }

    fn value_at(&self, place: &Place<K>, offset: u64) -> Option<V> {
        self.run(place).get(offset as usize).copied()
    }

    fn first_in(&self, partition: u64) -> Option<Place<K>> {
        let start = self.places().partition_point(|p| p.partition < partition);
        self.place_in(start, partition)
    }

    fn last_in(&self, partition: u64) -> Option<Place<K>> {
        let end = self.places().partition_point(|p| p.partition <= partition);
        self.place_before(end, partition)
    }

    fn next_in(&self, place: &Place<K>) -> Option<Place<K>> {
        let next = self.sorted().upper_bound(place);
        self.place_in(next, place.partition)
    }

    fn previous_in(&self, place: &Place<K>) -> Option<Place<K>> {
        let bound = self.sorted().lower_bound(place);
        self.place_before(bound, place.partition)
    }

    fn space(&self, partition: u64) -> u64 {
        if partition < self.partitions {
            (self.cells - self.len) as u64
        } else {
            0
        }
    }

    fn partition_count(&self) -> u64 {
        self.partitions
    }

    fn assured_number(&self) -> u64 {
        self.cells as u64
    }

    fn is_empty(&self) -> bool {
        self.len == 0
    }
}
