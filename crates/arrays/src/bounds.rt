// Searches in a sorted slice of keys; equal keys are adjacent, and are a run.
ghost use Rattle.std.specs.Prelude.{◌≡◌, ◌+◌, ◌<◌, ◌≤◌, length, slice_index_or};
ghost use Rattle.keys.specs.Order.{before};
ghost use Rattle.contents.specs.Sorted.{Sorted, below, upto};

use keys::Key;
use std::ops::Range;

// A slice of keys in rising order.
#[derive(Drop)]
pub struct Keys<'a, K: Key> {
    keys: &'a [K],
    ghost sorted: { Sorted (before K.cmp) keys.now },
}

impl<'a, K: Key> Keys<'a, K> {
    pub fn new(keys: &'a [K]) -> Keys<'a, K>
        requires { Sorted (before K.cmp) keys.now }
        ensures { result.keys.now ≡ keys.now }
    {
        Keys { keys }
    }

    // The index of the first key that is not less than `key`.
    pub fn lower_bound(&self, key: &K) -> usize
        ensures { result ≡ below (before K.cmp) self.now.keys.now key.now }
    {
        self.keys.partition_point(|k| k.less(key))
    }

    // The index of the first key that is greater than `key`.
    pub fn upper_bound(&self, key: &K) -> usize
        ensures { result ≡ upto (before K.cmp) self.now.keys.now key.now }
    {
        self.keys.partition_point(|k| !key.less(k))
    }

    // The keys from `from` on that are not greater than `key` (scans forward only).
    fn run_on(&self, from: usize, key: &K) -> Range<usize>
        requires { from ≤ upto (before K.cmp) self.now.keys.now key.now }
        ensures start { result.start ≡ from }
        ensures end { result.end ≡ upto (before K.cmp) self.now.keys.now key.now }
        ensures ordered { result.start ≤ result.end }
        ensures within { result.end ≤ length self.now.keys.now }
    {
        let rest = self.keys[from..].iter();
        let end = from + rest.take_while(|k| !key.less(k)).count();
        from..end
    }

    // The rest of the run of the key at `idx`, from there on (scans forward only).
    pub fn run_starting_at(&self, idx: usize) -> Range<usize>
        requires { idx < length self.now.keys.now }
        ensures start { result.start ≡ idx }
        ensures end { (d : K) → result.end ≡ upto (before K.cmp) self.now.keys.now (slice_index_or self.now.keys.now idx d) }
        ensures ordered { result.start ≤ result.end }
        ensures within { result.end ≤ length self.now.keys.now }
    {
        self.run_on(idx, &self.keys[idx])
    }

    // The run of the key at `idx`, up to there (scans backward only).
    pub fn run_ending_at(&self, idx: usize) -> Range<usize>
        requires { idx < length self.now.keys.now }
        ensures start { (d : K) → result.start ≡ below (before K.cmp) self.now.keys.now (slice_index_or self.now.keys.now idx d) }
        ensures end { result.end ≡ idx + 1 }
        ensures ordered { result.start ≤ result.end }
        ensures within { result.end ≤ length self.now.keys.now }
    {
        let key = &self.keys[idx];
        let earlier = self.keys[..idx].iter().rev();
        let start = idx - earlier.take_while(|k| !k.less(key)).count();
        start..idx + 1
    }

    // The run of `key`, empty where there is none.
    pub fn run_range(&self, key: &K) -> Range<usize>
        ensures start { result.start ≡ below (before K.cmp) self.now.keys.now key.now }
        ensures end { result.end ≡ upto (before K.cmp) self.now.keys.now key.now }
        ensures ordered { result.start ≤ result.end }
        ensures within { result.end ≤ length self.now.keys.now }
    {
        self.run_on(self.lower_bound(key), key)
    }
}
