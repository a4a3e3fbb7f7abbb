// The cells of one window, among those of all.
ghost use Rattle.std.specs.Prelude.{◌≡◌, ◌+◌, ◌*◌, ◌^◌, ◌<◌, ◌≤◌, length, slice_set};
ghost use Rattle.arrays.specs.Cells.{put_at, cut};
ghost use Rattle.layout.specs.Windows.{used, spare, cells_of, with_window, Counts};

use arrays::{insert_at, remove_run, set};
use std::ops::Range;

// How many partitions there are, and how many cells each has.
#[derive(Clone, Copy)]
pub struct Layout {
    pub window: usize,
    pub partitions: u64,
}

impl Layout {
    // The cells of a partition.
    fn cells(self, partition: u64) -> Range<usize>
        requires inside { partition < self.partitions }
        requires fits { self.partitions * self.window < 2 ^ 64 }
        ensures start { result.start ≡ partition * self.window }
        ensures end { result.end ≡ partition * self.window + self.window }
        ensures within { result.end ≤ self.partitions * self.window }
    {
        let origin = partition as usize * self.window;
        origin..origin + self.window
    }

    // The cells in use of a partition, none where there is no such partition.
    pub(crate) fn used<'a, T>(self, cells: &'a [T], lengths: &[u64], partition: u64) -> &'a [T]
        requires lengths { Counts lengths.now self.window self.partitions }
        requires cells { self.partitions * self.window ≤ length cells.now }
        ensures { result.now ≡ used cells.now lengths.now self.window self.partitions partition }
    {
        if partition >= self.partitions {
            return &[];
        }
        let len = lengths[partition as usize] as usize;
        &cells[self.cells(partition)][..len]
    }

    // How many cells of a partition are not in use.
    pub(crate) fn space(self, lengths: &[u64], partition: u64) -> u64
        requires { Counts lengths.now self.window self.partitions }
        ensures { result ≡ spare lengths.now self.window self.partitions partition }
    {
        if partition < self.partitions {
            self.window as u64 - lengths[partition as usize]
        } else {
            0
        }
    }

    // Puts `x` in at `idx` of the `len` cells in use of a partition.
    pub(crate) fn insert<T: Copy>(
        self,
        cells: &mut [T],
        partition: u64,
        len: usize,
        idx: usize,
        x: T,
    )
        requires inside { partition < self.partitions }
        requires cells { self.partitions * self.window ≤ length cells.old }
        requires room { len < self.window }
        requires within { idx ≤ len }
        ensures { cells.new ≡ with_window cells.old self.window partition (put_at (cells_of cells.old self.window partition) len idx x) }
    {
        insert_at(&mut cells[self.cells(partition)], len, idx, x);
    }

    // Takes a range out of the `len` cells in use of a partition.
    pub(crate) fn remove<T: Copy>(
        self,
        cells: &mut [T],
        partition: u64,
        len: usize,
        start: usize,
        end: usize,
    )
        requires inside { partition < self.partitions }
        requires cells { self.partitions * self.window ≤ length cells.old }
        requires room { len ≤ self.window }
        requires range { start ≤ end }
        requires within { end ≤ len }
        ensures { cells.new ≡ with_window cells.old self.window partition (cut (cells_of cells.old self.window partition) len start end) }
    {
        remove_run(&mut cells[self.cells(partition)], len, start, end);
    }

    // Overwrites the cell at `idx` of a partition.
    pub(crate) fn replace<T: Copy>(self, cells: &mut [T], partition: u64, idx: usize, x: T)
        requires inside { partition < self.partitions }
        requires cells { self.partitions * self.window ≤ length cells.old }
        requires within { idx < self.window }
        ensures { cells.new ≡ with_window cells.old self.window partition (slice_set (cells_of cells.old self.window partition) idx x) }
    {
        set(&mut cells[self.cells(partition)], idx, x);
    }
}
