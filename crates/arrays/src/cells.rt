// Changes of one slice, of which the first `len` cells are in use; the contracts name those behind too.
ghost use Rattle.std.specs.Prelude.{◌≡◌, ◌+◌, ◌<◌, ◌≤◌, length, slice_index_or, slice_set};
ghost use Rattle.arrays.specs.Cells.{put_at, cut};

// Puts `x` in at `idx`: the cells from there on move up by one.
pub fn insert_at<T: Copy>(cells: &mut [T], len: usize, idx: usize, x: T)
    requires room { len < length cells.old }
    requires within { idx ≤ len }
    ensures { cells.new ≡ put_at cells.old len idx x }
{
    cells[idx..len + 1].rotate_right(1);
    cells[idx] = x;
}

// Takes the cells from `start` to `end` out: those from `end` on move down.
pub fn remove_run<T: Copy>(cells: &mut [T], len: usize, start: usize, end: usize)
    requires range { start ≤ end }
    requires within { end ≤ len }
    requires room { len ≤ length cells.old }
    ensures { cells.new ≡ cut cells.old len start end }
{
    cells.copy_within(end..len, start);
}

// Takes the cell at `idx` out.
pub fn remove_at<T: Copy>(cells: &mut [T], len: usize, idx: usize)
    requires within { idx < len }
    requires room { len ≤ length cells.old }
    ensures { cells.new ≡ cut cells.old len idx (idx + 1) }
{
    remove_run(cells, len, idx, idx + 1);
}

// Overwrites the cell at `idx`.
pub fn set<T: Copy>(cells: &mut [T], idx: usize, value: T)
    requires { idx < length cells.old }
    ensures { cells.new ≡ slice_set cells.old idx value }
{
    cells[idx] = value;
}

// What the cell at `idx` holds.
pub fn value_at<T: Copy>(values: &[T], idx: usize) -> T
    requires { idx < length values.now }
    ensures { result ≡ slice_index_or values.now idx result }
{
    values[idx]
}
