// The reads of a book.
ghost use Rattle.std.specs.Prelude.{◌≡◌, ◌≤◌, true, ◌&&◌, ◌++◌, length, drop, nat_le};
ghost use Rattle.keys.specs.Order.{before};
ghost use Rattle.keys.specs.Orders.{place_order};
ghost use Rattle.contents.specs.Entries.{places, first_that, last_that};
ghost use Rattle.store.specs.Meaning.{run_at};
ghost use Rattle.translate.specs.Bytes.{Keeps};
ghost use Rattle.translate.specs.Split.{place_of};
ghost use Rattle.book.specs.Calls.{Answers, counts, Copy};
ghost use Rattle.book.specs.State.{state};

use crate::book::Book;
use crate::counts::Counts;
use keys::{Key, Place};
use store::{Refusal, Store};
use translate::{OrderedTranslator, Translator};

impl<S: Store, T: Translator<Key = S::Key>> Book<S, T> {
    // Copies the run of `key` to the first slots, and answers its length.
    pub fn get(&self, key: &[u8], slots: &mut [S::Value]) -> Result<usize, Refusal>
        ensures { Copy S.Key.cmp (state self.now) (place_of (state self.now).prefix (T.Translator.meaning self.now.translator) key.now) slots.old slots.new result }
    {
        let place = self.place(key)?;
        self.run(&place, slots)
    }

    // Copies the run at `place` to the first slots, and answers its length.
    pub fn run(&self, place: &Place<S::Key>, slots: &mut [S::Value]) -> Result<usize, Refusal>
        ensures { Copy S.Key.cmp (state self.now) place.now slots.old slots.new result }
    {
        self.opened()?;
        let len = self.store.run_len(place) as usize;
        if slots.len() < len {
            return Err(Refusal::FewSlots);
        }
        copy_run(&self.store, place, len, slots);
        Ok(len)
    }

    // The number of places held, of values held, and of values struck.
    pub fn counts(&self) -> Result<Counts, Refusal>
        ensures { Answers (state self.now) (counts S.Key.cmp (state self.now)) result }
    {
        self.opened()?;
        Ok(Counts {
            keys: self.keys,
            items: self.items,
            pruned: 0,
        })
    }

    // The store below, to be read.
    pub fn store(&self) -> &S
        ensures { result.now ≡ self.now.store }
    {
        &self.store
    }
}

// Order is for translators that keep it: of two keys, the earlier in bytes never has the later place.
impl<S: Store, T: OrderedTranslator<Key = S::Key>> Book<S, T> {
    // The least place.
    pub fn first(&self) -> Result<Option<Place<S::Key>>, Refusal>
        ensures place { Answers (state self.now) (first_that (λ _. true) (places (state self.now).store.contents)) result }
        ensures keeps { Keeps (place_order S.Key.cmp) (place_of (state self.now).prefix (T.Translator.meaning self.now.translator)) }
    {
        self.opened()?;
        Ok(first_from(&self.store, 0))
    }

    // The greatest place.
    pub fn last(&self) -> Result<Option<Place<S::Key>>, Refusal>
        ensures { Answers (state self.now) (last_that (λ _. true) (places (state self.now).store.contents)) result }
    {
        self.opened()?;
        Ok(last_of(&self.store))
    }

    // The least place after `place`; none after the last.
    pub fn next_after(&self, place: &Place<S::Key>) -> Result<Option<Place<S::Key>>, Refusal>
        ensures { Answers (state self.now) (first_that (before (place_order S.Key.cmp) place.now) (places (state self.now).store.contents)) result }
    {
        self.opened()?;
        Ok(next_place(&self.store, place))
    }
}

// Copies a run of `len` values to the first slots.
fn copy_run<S: Store>(store: &S, place: &Place<S::Key>, len: usize, slots: &mut [S::Value])
    requires whole { len ≡ length (run_at S.Key.cmp (S.Store.meaning store.now) place.now) }
    requires room { len ≤ length slots.old }
    ensures { slots.new ≡ run_at S.Key.cmp (S.Store.meaning store.now) place.now ++ drop len slots.old }
{
    for i in 0..len {
        match store.value_at(place, i as u64) {
            Some(value) => slots[i] = value,
            None => unreachable(),
        }
    }
}

// The least place of the partitions from `from` on.
fn first_from<S: Store>(store: &S, from: u64) -> Option<Place<S::Key>>
    ensures { result ≡ first_that (λ p. nat_le from p.partition) (places (S.Store.meaning store.now).contents) }
{
    for q in from..store.partition_count() {
        if let Some(place) = store.first_in(q) {
            return Some(place);
        }
    }
    None
}

// The greatest place of all.
fn last_of<S: Store>(store: &S) -> Option<Place<S::Key>>
    ensures { result ≡ last_that (λ _. true) (places (S.Store.meaning store.now).contents) }
{
    for q in (0..store.partition_count()).rev() {
        if let Some(place) = store.last_in(q) {
            return Some(place);
        }
    }
    None
}

// The least place after `place`, which may be of any partition.
fn next_place<S: Store>(store: &S, place: &Place<S::Key>) -> Option<Place<S::Key>>
    ensures { result ≡ first_that (before (place_order S.Key.cmp) place.now) (places (S.Store.meaning store.now).contents) }
{
    if let Some(next) = store.next_in(place) {
        return Some(next);
    }
    if place.partition >= store.partition_count() {
        return None;
    }
    first_from(store, place.partition + 1)
}
