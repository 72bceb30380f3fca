ghost use Rattle.std.specs.Prelude.{◌≡◌, length, drop, ◌+◌, ◌≤◌, ◌<◌};
ghost use Rattle.names.specs.Key.{names_used};
ghost use Rattle.store.specs.Image.{change_row, numbers_size, bytes_size};
ghost use Rattle.store.specs.Machine.{changes_most};
ghost use Rattle.store.specs.code.Rows.{packed_at, row_number, depth_at, start_at, key_start};

use crate::sizes::{BYTES_MOST, BYTES_SIZE, CHANGE_ROW, DEPTH, END, PACKED_AT, ROWS_AT};

// The number of change r in this column of its row.
#[tactic(auto, unfolding(crate::specs::code::Rows::row_number))]
pub fn row_number(numbers: &[u32], column: usize, r: usize) -> usize
    requires { (length numbers.now ≡ numbers_size) × (column < change_row) × (r < changes_most) }
    ensures { result ≡ row_number numbers.now column r }
{
    numbers[ROWS_AT + CHANGE_ROW * r + column] as usize
}

// Where its bytes start, counted from the first change byte; also those of the change that would come next. No one function with `through_files`: only the
// test for the first is common, and the rows are of other widths.
#[tactic(auto, unfolding(crate::specs::code::Rows::start_at, names::specs::Pick::pick))]
pub fn bytes_start(numbers: &[u32], r: usize) -> usize
    requires { (length numbers.now ≡ numbers_size) × (r ≤ changes_most) }
    ensures { result ≡ start_at numbers.now r }
{
    if r == 0 {
        0
    } else {
        row_number(numbers, END, r - 1)
    }
}

// The place in the bytes buffer where the key of change r starts; its end, if the row points beyond it.
pub fn key_place(numbers: &[u32], bytes: &[u8], r: usize) -> usize
    requires { (length numbers.now ≡ numbers_size) × (length bytes.now ≡ bytes_size) × (r < changes_most) }
    ensures { (drop result bytes.now ≡ drop (packed_at + key_start numbers.now r) bytes.now) × (result ≤ length bytes.now) }
{
    let start = bytes_start(numbers, r);
    if BYTES_MOST < start {
        BYTES_SIZE
    } else {
        PACKED_AT + start
    }
}

// How many names a key of this depth has.
#[tactic(auto, using(names::proofs::KeyDepth::used_beyond, names::proofs::KeyDepth::used_zero))]
pub fn depth_names(depth: usize) -> usize
    ensures { result ≡ names_used depth }
{
    match depth {
        1..=5 => names::key::names_used(depth as u8),
        _ => 0,
    }
}

// The place of the key of change r, and how many names it has.
pub fn row_key(numbers: &[u32], bytes: &[u8], r: usize) -> (usize, usize)
    requires { (length numbers.now ≡ numbers_size) × (length bytes.now ≡ bytes_size) × (r < changes_most) }
    ensures place { (drop result.0 bytes.now ≡ drop (packed_at + key_start numbers.now r) bytes.now) × (result.0 ≤ length bytes.now) }
    ensures names { result.1 ≡ names_used (depth_at numbers.now r) }
{
    (key_place(numbers, bytes, r), row_names(numbers, r))
}

// How many names the key of change r has.
pub fn row_names(numbers: &[u32], r: usize) -> usize
    requires { (length numbers.now ≡ numbers_size) × (r < changes_most) }
    ensures { result ≡ names_used (depth_at numbers.now r) }
{
    depth_names(row_number(numbers, DEPTH, r))
}
