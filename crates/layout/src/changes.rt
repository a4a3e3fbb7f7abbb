// The changes of a store of windows, over the slices that hold it.
ghost use Rattle.layout.specs.Windows.{cells_meaning, Sorts};
ghost use Rattle.store.specs.Meaning.{Put, Take, Set, Removed};

use crate::layout::Layout;
use arrays::value_at;
use keys::{Key, Place};
use std::ops::Range;
use store::Refusal;

impl Layout {
    // Puts a value in at an offset of the run at a place.
    pub fn put<K: Key, V: Copy>(
        self,
        keys: &mut [K],
        values: &mut [V],
        lengths: &mut [u64],
        place: &Place<K>,
        offset: u64,
        value: V,
    ) -> Result<(), Refusal>
        requires { Sorts K.cmp keys.old values.old lengths.old self.window self.partitions }
        ensures sorts { Sorts K.cmp keys.new values.new lengths.new self.window self.partitions }
        ensures does { Put K.cmp (cells_meaning keys.old values.old lengths.old self.window self.partitions) (cells_meaning keys.new values.new lengths.new self.window self.partitions) place.now offset value result }
    {
        let q = place.partition;
        let (len, at) = self.put_slot(keys, lengths, place, offset)?;
        self.insert(keys, q, len, at, place.key);
        self.insert(values, q, len, at, value);
        lengths[q as usize] = len as u64 + 1;
        Ok(())
    }

    // Takes a value out, and answers it.
    pub fn take<K: Key, V: Copy>(
        self,
        keys: &mut [K],
        values: &mut [V],
        lengths: &mut [u64],
        place: &Place<K>,
        offset: u64,
    ) -> Result<V, Refusal>
        requires { Sorts K.cmp keys.old values.old lengths.old self.window self.partitions }
        ensures sorts { Sorts K.cmp keys.new values.new lengths.new self.window self.partitions }
        ensures does { Take K.cmp (cells_meaning keys.old values.old lengths.old self.window self.partitions) (cells_meaning keys.new values.new lengths.new self.window self.partitions) place.now offset result }
    {
        let q = place.partition;
        let (len, at) = self.held_slot(keys, lengths, place, offset)?;
        let value = value_at(self.used(values, lengths, q), at);
        self.remove(keys, q, len, at, at + 1);
        self.remove(values, q, len, at, at + 1);
        lengths[q as usize] = len as u64 - 1;
        Ok(value)
    }

    // Replaces a value.
    pub fn set<K: Key, V: Copy>(
        self,
        keys: &mut [K],
        values: &mut [V],
        lengths: &mut [u64],
        place: &Place<K>,
        offset: u64,
        value: V,
    ) -> Result<(), Refusal>
        requires { Sorts K.cmp keys.old values.old lengths.old self.window self.partitions }
        ensures sorts { Sorts K.cmp keys.new values.new lengths.new self.window self.partitions }
        ensures does { Set K.cmp (cells_meaning keys.old values.old lengths.old self.window self.partitions) (cells_meaning keys.new values.new lengths.new self.window self.partitions) place.now offset value result }
    {
        let (_, at) = self.held_slot(keys, lengths, place, offset)?;
        self.replace(values, place.partition, at, value);
        Ok(())
    }

    // Removes the run at a place: one removal from each slice, however long the run.
    pub fn remove_run<K: Key, V: Copy>(
        self,
        keys: &mut [K],
        values: &mut [V],
        lengths: &mut [u64],
        place: &Place<K>,
    )
        requires { Sorts K.cmp keys.old values.old lengths.old self.window self.partitions }
        ensures sorts { Sorts K.cmp keys.new values.new lengths.new self.window self.partitions }
        ensures does { Removed K.cmp (cells_meaning keys.old values.old lengths.old self.window self.partitions) (cells_meaning keys.new values.new lengths.new self.window self.partitions) place.now }
    {
        let q = place.partition;
        let Range { start, end } = self.range(keys, lengths, place);
        if start == end {
            return;
        }
        let len = lengths[q as usize];
        self.remove(keys, q, len as usize, start, end);
        self.remove(values, q, len as usize, start, end);
        lengths[q as usize] = len - (end - start) as u64;
    }
}
