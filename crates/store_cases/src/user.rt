// A user of the interface, for any store of number keys and positions with room for four values in partition 5.
use keys::Place;
use std::process::Abort;
use store::{Refusal, Store};

fn at(key: u32) -> Place<u32> {
    Place { partition: 5, key }
}

// The first three values of a run.
pub fn values<S: Store<Key = u32, Value = u64>>(
    store: &S,
    place: &Place<u32>,
) -> (Option<u64>, Option<u64>, Option<u64>) {
    (
        store.value_at(place, 0),
        store.value_at(place, 1),
        store.value_at(place, 2),
    )
}

// Puts at both ends and in the middle of runs, and reads them.
fn put_and_read<S: Store<Key = u32, Value = u64>>(rt: &impl Abort, store: &mut S) {
    assert!(rt; store.is_empty());
    assert!(rt; store.put(&at(30), 0, 2).is_ok());
    assert!(rt; store.put(&at(30), 0, 1).is_ok());
    assert!(rt; store.put(&at(10), 0, 9).is_ok());
    assert!(rt; store.put(&at(30), 3, 4).err().map(Refusal::code) == Some(9));
    assert!(rt; values(store, &at(30)) == (Some(1), Some(2), None));
    assert!(rt; store.run_len(&at(10)) == 1 && store.run_len(&at(20)) == 0);
    assert!(rt; !store.is_empty());
}

// The places of the partition.
fn neighbours<S: Store<Key = u32, Value = u64>>(rt: &impl Abort, store: &S) {
    assert!(rt; store.first_in(5) == Some(at(10)));
    assert!(rt; store.last_in(5) == Some(at(30)));
    assert!(rt; store.next_in(&at(10)) == Some(at(30)));
    assert!(rt; store.next_in(&at(30)).is_none());
    assert!(rt; store.previous_in(&at(30)) == Some(at(10)));
    assert!(rt; store.previous_in(&at(10)).is_none());
    assert!(rt; store.first_in(4).is_none());
}

// Sets, takes and removes what was put.
fn change_and_remove<S: Store<Key = u32, Value = u64>>(rt: &impl Abort, store: &mut S) {
    assert!(rt; store.set(&at(30), 1, 7).is_ok());
    assert!(rt; store.set(&at(30), 2, 7).err().map(Refusal::code) == Some(9));
    assert!(rt; store.take(&at(20), 0).err().map(Refusal::code) == Some(9));
    assert_eq!(rt; store.take(&at(30), 0).ok(), Some(1));
    assert!(rt; values(store, &at(30)) == (Some(7), None, None));
    store.remove_run(&at(30));
    store.remove_run(&at(30));
    assert!(rt; store.run_len(&at(30)) == 0);
    assert_eq!(rt; store.take(&at(10), 0).ok(), Some(9));
    assert!(rt; store.is_empty());
}

// All of it.
pub fn use_store<S: Store<Key = u32, Value = u64>>(rt: &impl Abort, store: &mut S) {
    put_and_read(rt, store);
    neighbours(rt, store);
    change_and_remove(rt, store);
    let outside = Place {
        partition: 256,
        key: 0,
    };
    assert!(rt; store.put(&outside, 0, 1).err().map(Refusal::code) == Some(6));
}
