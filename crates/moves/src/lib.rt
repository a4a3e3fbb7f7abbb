// The move of a partition from a windowed store to another store.
#![tactic(auto)]

ghost use Rattle.std.specs.Prelude.{◌≡◌, ◌<◌, ◌≤◌, length};
ghost use Rattle.store.specs.Meaning.{PutDone, run_at, values_in};
ghost use Rattle.moves.specs.Moving.{Appended, Moved};

use keys::Place;
use store::{Store, Windowed};

// A put that cannot be refused.
pub fn put_sure<S: Store>(side: &mut S, place: &Place<S::Key>, offset: u64, value: S::Value)
    requires roomy { 0 < (S.Store.meaning side.old).space place.now.partition }
    requires inside { offset ≤ length (run_at S.Key.cmp (S.Store.meaning side.old) place.now) }
    ensures { PutDone S.Key.cmp (S.Store.meaning side.old) (S.Store.meaning side.new) place.now offset value }
{
    match side.put(place, offset, value) {
        Ok(()) => {}
        Err(_) => unreachable(),
    }
}

// Puts each value of a run of one store at the end of the other's run at that place.
pub fn copy_run<W: Store, S: Store<Key = W::Key, Value = W::Value>>(
    from: &W,
    to: &mut S,
    place: &Place<W::Key>,
)
    requires { length (run_at W.Key.cmp (W.Store.meaning from.now) place.now) ≤ (S.Store.meaning to.old).space place.now.partition }
    ensures { Appended W.Key.cmp (S.Store.meaning to.old) (S.Store.meaning to.new) place.now (run_at W.Key.cmp (W.Store.meaning from.now) place.now) }
{
    for i in 0..from.run_len(place) {
        match from.value_at(place, i) {
            Some(value) => {
                let end = to.run_len(place);
                put_sure(to, place, end, value);
            }
            None => unreachable(),
        }
    }
}

// Moves all runs of a partition.
pub fn move_partition<W: Windowed, S: Store<Key = W::Key, Value = W::Value>>(
    windows: &mut W,
    side: &mut S,
    partition: u64,
)
    requires apart { values_in (S.Store.meaning side.old) partition ≡ 0 }
    requires roomy { values_in (W.Store.meaning windows.old) partition ≤ (S.Store.meaning side.old).space partition }
    ensures { Moved W.Key.cmp (W.Store.meaning windows.old) (S.Store.meaning side.old) (W.Store.meaning windows.new) (S.Store.meaning side.new) partition }
{
    while let Some(place) = windows.first_in(partition) {
        copy_run(windows, side, &place);
        windows.remove_run(&place);
    }
}
