// The pocket store: 256 windows of four cells in its own record.
ghost use Rattle.std.specs.Prelude.{◌≡◌};
ghost use Rattle.std.specs.Ordering.{nat_cmp};
ghost use Rattle.layout.specs.Windows.{bare, Sorts};

use keys::Place;
use layout::{Cells, Layout};
use store::{Refusal, Store, Windowed};

const LAYOUT: Layout = Layout {
    window: 4,
    partitions: 256,
};

#[derive(Drop)]
pub struct Pocket {
    keys: [u32; 1024],
    values: [u64; 1024],
    lengths: [u64; 256],
    ghost sorts: { Sorts nat_cmp keys values lengths 4 256 },
}

impl Pocket {
    ghost use Rattle.layout.specs.Cells.{meaning};
    ghost use Rattle.windows.specs.Stores.{pocket_meaning};

    // An empty pocket.
    pub fn open() -> Pocket
        ensures { pocket_meaning result ≡ bare 4 256 }
    {
        Pocket {
            keys: [0; 1024],
            values: [0; 1024],
            lengths: [0; 256],
        }
    }

    // The windows, to be read.
    fn cells(&self) -> Cells<'_, u32, u64>
        ensures { meaning result ≡ pocket_meaning self.now }
    {
        Cells::new(&self.keys, &self.values, &self.lengths, LAYOUT)
    }
}

impl Store for Pocket {
    ghost use Rattle.windows.specs.Stores.{pocket_meaning, pocket_sound};

    type Key = u32;

    type Value = u64;

    ghost meaning = { pocket_meaning };

    ghost sound = { pocket_sound };

    fn put(&mut self, place: &Place<u32>, offset: u64, value: u64) -> Result<(), Refusal> {
        LAYOUT.put(
            &mut self.keys,
            &mut self.values,
            &mut self.lengths,
            place,
            offset,
            value,
        )
    }

    fn take(&mut self, place: &Place<u32>, offset: u64) -> Result<u64, Refusal> {
        LAYOUT.take(
            &mut self.keys,
            &mut self.values,
            &mut self.lengths,
            place,
            offset,
        )
    }

    fn set(&mut self, place: &Place<u32>, offset: u64, value: u64) -> Result<(), Refusal> {
        LAYOUT.set(
            &mut self.keys,
            &mut self.values,
            &mut self.lengths,
            place,
            offset,
            value,
        )
    }

    fn remove_run(&mut self, place: &Place<u32>) {
        LAYOUT.remove_run(&mut self.keys, &mut self.values, &mut self.lengths, place)
    }

    fn run_len(&self, place: &Place<u32>) -> u64 {
        self.cells().run_len(place)
    }

    fn value_at(&self, place: &Place<u32>, offset: u64) -> Option<u64> {
        self.cells().value_at(place, offset)
    }

    fn first_in(&self, partition: u64) -> Option<Place<u32>> {
        self.cells().first_in(partition)
    }

    fn last_in(&self, partition: u64) -> Option<Place<u32>> {
        self.cells().last_in(partition)
    }

    fn next_in(&self, place: &Place<u32>) -> Option<Place<u32>> {
        self.cells().next_in(place)
    }

    fn previous_in(&self, place: &Place<u32>) -> Option<Place<u32>> {
        self.cells().previous_in(place)
    }

    fn space(&self, partition: u64) -> u64 {
        self.cells().space(partition)
    }

    fn partition_count(&self) -> u64 {
        LAYOUT.partitions
    }

    fn assured_number(&self) -> u64 {
        LAYOUT.window as u64
    }

    fn is_empty(&self) -> bool {
        self.cells().is_empty()
    }
}

impl Windowed for Pocket {
    ghost use Rattle.windows.specs.Stores.{pocket_full};

    ghost windows = { pocket_full };
}
