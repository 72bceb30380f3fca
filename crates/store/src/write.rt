ghost use Rattle.std.specs.Prelude.{◌≡◌, ◌∷◌, [], ◌+◌, ◌-◌, ◌≤◌, ◌<◌, length, replicate};
ghost use Rattle.names.specs.Date.{date_size};
ghost use Rattle.names.specs.Name.{long_name_most};
ghost use Rattle.names.specs.Overwrite.{overwrite};
ghost use Rattle.store.specs.Image.{numbers_size, bytes_size};
ghost use Rattle.store.specs.Machine.{files_most, changes_most, bytes_most};
ghost use Rattle.store.specs.code.Writes.{Appended, Cleared, Closed, Unfiled};

use crate::sizes::{CHANGE_ROW, CONTENTS_SIZE, FILE_ROW, FILE_SLOT, FILES_AT, PACKED_AT, ROWS_AT};
use names::bytes::{clear, put_bytes};
use names::name::LONG_NAME_MOST;

// Writes a row of three numbers from p on.
pub fn put3(numbers: &mut [u32], p: usize, a: u32, b: u32, c: u32)
    requires { p + 3 ≤ length numbers.old }
    ensures { numbers.new ≡ overwrite numbers.old p (a ∷ b ∷ c ∷ []) }
{
    numbers[p..p + 3].copy_from_slice(&[a, b, c]);
}

// Writes zeros from a up to e. Kept by name beside names' `clear`, of bytes: a public function stays, and each is one call of the library.
pub fn clear_numbers(numbers: &mut [u32], a: usize, e: usize)
    requires { (a ≤ e) × (e ≤ length numbers.old) }
    ensures { numbers.new ≡ overwrite numbers.old a (replicate (e - a) 0) }
{
    numbers[a..e].fill(0);
}

// Both buffers are lent slices in all that follows: document 01 lends them so, and a public function takes no narrower type.

// Writes row c, and the change's bytes, its packed key and its value, behind b.
pub fn append_change(
    numbers: &mut [u32],
    bytes: &mut [u8],
    c: usize,
    b: usize,
    kind: u32,
    depth: u32,
    text: &[u8],
)
    requires numbers_len { (length numbers.old ≡ numbers_size) × (length bytes.old ≡ bytes_size) }
    requires c_lt_changes_most { (c < changes_most) × (b + length text.now ≤ bytes_most) }
    ensures { Appended numbers.old bytes.old c b kind depth text.now numbers.new bytes.new }
{
    let end = b + text.len();
    put3(numbers, ROWS_AT + CHANGE_ROW * c, kind, depth, end as u32);
    put_bytes(bytes, PACKED_AT + b, text);
}

// Clears the rows from c up to d and the change bytes from b up to e.
pub fn clear_changes(numbers: &mut [u32], bytes: &mut [u8], c: usize, d: usize, b: usize, e: usize)
    requires numbers_len { (length numbers.old ≡ numbers_size) × (length bytes.old ≡ bytes_size) }
    requires c_le_d { (c ≤ d) × (d ≤ changes_most) × (b ≤ e) × (e ≤ bytes_most) }
    ensures { Cleared numbers.old bytes.old c d b e numbers.new bytes.new }
{
    clear_numbers(numbers, ROWS_AT + CHANGE_ROW * c, ROWS_AT + CHANGE_ROW * d);
    clear(bytes, PACKED_AT + b, PACKED_AT + e);
}

// Files what was appended: the contents, and row and slot of file f, with c changes and b bytes through it.
pub fn close_file(
    numbers: &mut [u32],
    bytes: &mut [u8],
    f: usize,
    oid: &[u8],
    date: &[u8],
    c: usize,
    b: usize,
)
    requires numbers_len { (length numbers.old ≡ numbers_size) × (length bytes.old ≡ bytes_size) }
    requires f_lt_files_most { (f < files_most) × (length oid.now ≤ long_name_most) × (length date.now ≤ date_size) × (c ≤ changes_most) × (b ≤ bytes_most) }
    ensures { Closed numbers.old bytes.old f oid.now date.now c b numbers.new bytes.new }
{
    put3(numbers, 0, (f + 1) as u32, c as u32, b as u32);
    put3(
        numbers,
        CONTENTS_SIZE + FILE_ROW * f,
        oid.len() as u32,
        c as u32,
        b as u32,
    );
    let slot = FILES_AT + FILE_SLOT * f;
    put_bytes(bytes, slot, oid);
    put_bytes(bytes, slot + LONG_NAME_MOST, date);
}

// Takes file f, the last, out of rows and slots, and gives the contents without it: c changes of b bytes.
pub fn unfile(numbers: &mut [u32], bytes: &mut [u8], f: usize, c: usize, b: usize)
    requires numbers_len { (length numbers.old ≡ numbers_size) × (length bytes.old ≡ bytes_size) }
    requires f_lt_files_most { (f < files_most) × (c ≤ changes_most) × (b ≤ bytes_most) }
    ensures { Unfiled numbers.old bytes.old f c b numbers.new bytes.new }
{
    put3(numbers, 0, f as u32, c as u32, b as u32);
    let row = CONTENTS_SIZE + FILE_ROW * f;
    clear_numbers(numbers, row, row + FILE_ROW);
    let slot = FILES_AT + FILE_SLOT * f;
    clear(bytes, slot, slot + FILE_SLOT);
}
