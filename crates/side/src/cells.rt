// Changes of places and values alongside, of which the first `len` are in use.
ghost use Rattle.std.specs.Prelude.{◌≡◌, ◌+◌, ◌-◌, ◌<◌, ◌≤◌, length};
ghost use Rattle.arrays.specs.Cells.{put_at, cut};

use arrays::{insert_at, remove_at, remove_run};
use std::ops::Range;

// Puts a place and its value in at `at`.
pub fn insert<P: Copy, V: Copy>(
    places: &mut [P],
    values: &mut [V],
    len: &mut usize,
    at: usize,
    place: P,
    value: V,
)
    requires places { len.old < length places.old }
    requires values { len.old < length values.old }
    requires within { at ≤ len.old }
    ensures places { places.new ≡ put_at places.old len.old at place }
    ensures values { values.new ≡ put_at values.old len.old at value }
    ensures len { len.new ≡ len.old + 1 }
{
    insert_at(places, *len, at, place);
    insert_at(values, *len, at, value);
    *len += 1;
}

// Takes the place and the value at `at` out.
pub fn take<P: Copy, V: Copy>(places: &mut [P], values: &mut [V], len: &mut usize, at: usize)
    requires within { at < len.old }
    requires places { len.old ≤ length places.old }
    requires values { len.old ≤ length values.old }
    ensures places { places.new ≡ cut places.old len.old at (at + 1) }
    ensures values { values.new ≡ cut values.old len.old at (at + 1) }
    ensures len { len.new ≡ len.old - 1 }
{
    remove_at(places, *len, at);
    remove_at(values, *len, at);
    *len -= 1;
}

// Takes a range out of both.
pub fn remove<P: Copy, V: Copy>(
    places: &mut [P],
    values: &mut [V],
    len: &mut usize,
    range: Range<usize>,
)
    requires range { range.start ≤ range.end }
    requires within { range.end ≤ len.old }
    requires places { len.old ≤ length places.old }
    requires values { len.old ≤ length values.old }
    ensures places { places.new ≡ cut places.old len.old range.start range.end }
    ensures values { values.new ≡ cut values.old len.old range.start range.end }
    ensures len { len.new ≡ len.old - (range.end - range.start) }
{
    let Range { start, end } = range;
    remove_run(places, *len, start, end);
    remove_run(values, *len, start, end);
    *len -= end - start;
}
