// What a store holds, and the laws of a change. Each law is the contract of a function, so that the crate is not proved without it.
#![tactic(auto)]

ghost use Rattle.std.specs.Prelude.{◌≡◌, ℕ, ◌+◌, ◌<◌, ◌≤◌, List, length, if◌then◌else◌, slice_index_or, slice_set};
ghost use Rattle.std.specs.List.{insert, remove};
ghost use Rattle.keys.specs.Order.{before};
ghost use Rattle.contents.specs.Sorted.{below};
ghost use Rattle.contents.specs.Entries.{Entry, entry, places, Rising, run, keys, items, none};
ghost use Rattle.contents.specs.Changes.{Gains, Sets, Clears};

use keys::Key;

// The same runs are the same contents.
pub fn same_runs<K: Key, V: Copy + Drop>(_k: &K, _v: &V)
    ensures { (es fs : List (Entry K V)) → Rising (before K.cmp) es → Rising (before K.cmp) fs → ((q : K) → run (before K.cmp) es q ≡ run (before K.cmp) fs q) → es ≡ fs }
{}

// A value inserted at the start of its key's run plus an offset: sorted stays sorted, the run gains the value, and no other run changes.
pub fn insert_gains<K: Key, V: Copy + Drop>(_k: &K, _v: &V)
    ensures sorted { (es : List (Entry K V)) (p : K) (i : ℕ) (v : V) → Rising (before K.cmp) es → i ≤ length (run (before K.cmp) es p) → Rising (before K.cmp) (insert es (below (before K.cmp) (places es) p + i) (entry p v)) }
    ensures gains { (es : List (Entry K V)) (p : K) (i : ℕ) (v : V) → Rising (before K.cmp) es → i ≤ length (run (before K.cmp) es p) → Gains (before K.cmp) es (insert es (below (before K.cmp) (places es) p + i) (entry p v)) p i v }
{}

// A value removed from its key's run: sorted stays sorted, the run loses the value, and no other run changes.
pub fn remove_loses<K: Key, V: Copy + Drop>(_k: &K, _v: &V)
    ensures sorted { (es : List (Entry K V)) (i : ℕ) → Rising (before K.cmp) es → Rising (before K.cmp) (remove es i) }
    ensures loses { (es : List (Entry K V)) (p : K) (i : ℕ) (v : V) → Rising (before K.cmp) es → i < length (run (before K.cmp) es p) → v ≡ slice_index_or (run (before K.cmp) es p) i v → Gains (before K.cmp) (remove es (below (before K.cmp) (places es) p + i)) es p i v }
{}

// A value of a key's run replaced: sorted stays sorted, the run has the new value there, and no other run changes.
pub fn set_replaces<K: Key, V: Copy + Drop>(_k: &K, _v: &V)
    ensures { (es : List (Entry K V)) (p : K) (i : ℕ) (v : V) → Rising (before K.cmp) es → i < length (run (before K.cmp) es p) → Rising (before K.cmp) (slice_set es (below (before K.cmp) (places es) p + i) (entry p v)) × Sets (before K.cmp) es (slice_set es (below (before K.cmp) (places es) p + i) (entry p v)) p i v }
{}

// What a put adds: one value, and one key exactly where the run was empty.
pub fn put_adds<K: Key, V: Copy + Drop>(_k: &K, _v: &V)
    ensures values { (es fs : List (Entry K V)) (p : K) (i : ℕ) (v : V) → Rising (before K.cmp) es → Rising (before K.cmp) fs → Gains (before K.cmp) es fs p i v → items fs ≡ items es + 1 }
    ensures places { (es fs : List (Entry K V)) (p : K) (i : ℕ) (v : V) → Rising (before K.cmp) es → Rising (before K.cmp) fs → Gains (before K.cmp) es fs p i v → keys (before K.cmp) fs ≡ keys (before K.cmp) es + (if none (run (before K.cmp) es p) then 1 else 0) }
{}

// A value replaced changes neither count.
pub fn set_keeps<K: Key, V: Copy + Drop>(_k: &K, _v: &V)
    ensures values { (es fs : List (Entry K V)) (p : K) (i : ℕ) (v : V) → Rising (before K.cmp) es → Rising (before K.cmp) fs → Sets (before K.cmp) es fs p i v → items fs ≡ items es }
    ensures places { (es fs : List (Entry K V)) (p : K) (i : ℕ) (v : V) → Rising (before K.cmp) es → Rising (before K.cmp) fs → Sets (before K.cmp) es fs p i v → keys (before K.cmp) fs ≡ keys (before K.cmp) es }
{}

// A run removed takes its values away, and one key where there was one.
pub fn clear_drops<K: Key, V: Copy + Drop>(_k: &K, _v: &V)
    ensures values { (es fs : List (Entry K V)) (p : K) → Rising (before K.cmp) es → Rising (before K.cmp) fs → Clears (before K.cmp) es fs p → items es ≡ items fs + length (run (before K.cmp) es p) }
    ensures places { (es fs : List (Entry K V)) (p : K) → Rising (before K.cmp) es → Rising (before K.cmp) fs → Clears (before K.cmp) es fs p → keys (before K.cmp) es ≡ keys (before K.cmp) fs + (if none (run (before K.cmp) es p) then 0 else 1) }
{}
