// Runs handed out: the part of the caller's own slice of values, which stand alongside the keys.
ghost use Rattle.std.specs.Prelude.{◌≡◌, ◌-◌, ◌≤◌, true, length, take, slice_get};
ghost use Rattle.std.specs.Option.{option_map};
ghost use Rattle.std.specs.List.{between};
ghost use Rattle.keys.specs.Order.{before};
ghost use Rattle.contents.specs.Sorted.{Sorted, below, upto};
ghost use Rattle.contents.specs.Entries.{entries, run, first_that, last_that};
ghost use Rattle.arrays.specs.Handed.{handed};

use crate::bounds::Keys;
use keys::Key;

// Keys in rising order with a value beside each.
#[derive(Drop)]
pub struct Runs<'k, 'a, K: Key, V> {
    keys: Keys<'k, K>,
    values: &'a [V],
    ghost alongside: { length keys.keys.now ≡ length values.now },
}

impl<'k, 'a, K: Key, V> Runs<'k, 'a, K, V> {
    pub fn new(keys: &'k [K], values: &'a [V]) -> Runs<'k, 'a, K, V>
        requires sorted { Sorted (before K.cmp) keys.now }
        requires alongside { length keys.now ≡ length values.now }
        ensures keys { result.keys.keys.now ≡ keys.now }
        ensures values { result.values.now ≡ values.now }
    {
        Runs {
            keys: Keys::new(keys),
            values,
        }
    }

    // The run of the key at `idx` from there on, if a key stands there.
    fn run_from(&self, idx: usize) -> Option<&'a [V]>
        ensures { option_map (λ s. s.now) result ≡ option_map (λ k. between idx (upto (before K.cmp) self.now.keys.keys.now k) self.now.values.now) (slice_get self.now.keys.keys.now idx) }
    {
        if idx < self.values.len() {
            Some(&self.values[self.keys.run_starting_at(idx)])
        } else {
            None
        }
    }

    // The run of the key before `idx` up to there, if a key stands before it.
    fn run_before(&self, idx: usize) -> Option<&'a [V]>
        requires { idx ≤ length self.now.keys.keys.now }
        ensures { option_map (λ s. s.now) result ≡ option_map (λ k. between (below (before K.cmp) self.now.keys.keys.now k) idx self.now.values.now) (slice_get (take idx self.now.keys.keys.now) (idx - 1)) }
    {
        let last = idx.checked_sub(1)?;
        Some(&self.values[self.keys.run_ending_at(last)])
    }

    // The values of `key` (none where it is absent).
    pub fn values(&self, key: &K) -> &'a [V]
        ensures { result.now ≡ run (before K.cmp) (entries self.now.keys.keys.now self.now.values.now) key.now }
    {
        &self.values[self.keys.run_range(key)]
    }

    // The values of the least key.
    pub fn first_values(&self) -> Option<&'a [V]>
        ensures { option_map (λ s. s.now) result ≡ handed (before K.cmp) (entries self.now.keys.keys.now self.now.values.now) (first_that (λ _. true) self.now.keys.keys.now) }
    {
        self.run_from(0)
    }

    // The values of the greatest key.
    pub fn last_values(&self) -> Option<&'a [V]>
        ensures { option_map (λ s. s.now) result ≡ handed (before K.cmp) (entries self.now.keys.keys.now self.now.values.now) (last_that (λ _. true) self.now.keys.keys.now) }
    {
        self.run_before(self.values.len())
    }

    // The values of the least key that is greater than `key`.
    pub fn next_values_after(&self, key: &K) -> Option<&'a [V]>
        ensures { option_map (λ s. s.now) result ≡ handed (before K.cmp) (entries self.now.keys.keys.now self.now.values.now) (first_that (λ x. before K.cmp key.now x) self.now.keys.keys.now) }
    {
        self.run_from(self.keys.upper_bound(key))
    }

    // The values of the greatest key that is less than `key`.
    pub fn prev_values_before(&self, key: &K) -> Option<&'a [V]>
        ensures { option_map (λ s. s.now) result ≡ handed (before K.cmp) (entries self.now.keys.keys.now self.now.values.now) (last_that (λ x. before K.cmp x key.now) self.now.keys.keys.now) }
    {
        self.run_before(self.keys.lower_bound(key))
    }
}
