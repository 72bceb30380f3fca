ghost use Rattle.std.specs.Prelude.{◌≡◌, ℕ, map, ◌||◌, eqb, length, drop, ◌+◌, ◌-◌, ◌*◌, ◌≤◌, ◌<◌, MatchOption};
ghost use Rattle.std.proofs.Math.Option.{none, some};
ghost use Rattle.names.specs.code.ByteClasses.{Classes};
ghost use Rattle.names.specs.Date.{is_date, not_later};
ghost use Rattle.names.specs.Key.{names_used, names_in, is_key, is_repeat};
ghost use Rattle.names.specs.code.HeldKey.{read_key};
ghost use Rattle.names.specs.Name.{long_name_most, is_name};
ghost use Rattle.names.specs.Order.{same};
ghost use Rattle.names.specs.Pick.{◌and◌};
ghost use Rattle.store.specs.Change.{value_fits};
ghost use Rattle.store.specs.code.Entry.{IsUsed, after_name, after_key, entry_fits, change_fits, SizeIfFits, Measured};
ghost use Rattle.store.specs.code.Groups.{throughs_fit, names_fit, numbers_unused, bytes_unused, oid_size};
ghost use Rattle.store.specs.Image.{file_row, numbers_size, bytes_size, kind_of};
ghost use Rattle.store.specs.code.Layout.{file_count, change_count, byte_count, zeros, IsNumbered, slot_holds, file_number, oid_length, through_files, oid_slot, oid_at, date_at};
ghost use Rattle.store.specs.code.Layout.{new_oid, file_fits, files_fit, row_fits, rows_fit, contents_fit, unused_zero, laid_out};
ghost use Rattle.store.specs.Machine.{files_most, changes_most, bytes_most};
ghost use Rattle.store.specs.code.Rows.{packed_at, key_at};

use crate::rows::{bytes_start, depth_names, row_number};
use crate::sizes::{
    BYTE_COUNT, BYTES_MOST, BYTES_THROUGH, CHANGE_COUNT, CHANGE_ROW, CHANGES_MOST, CONTENTS_SIZE,
    DEPTH, END, FILE_COUNT, FILE_ROW, FILE_SLOT, FILES_AT, FILES_MOST, KIND, OID_LENGTH, PACKED_AT,
    ROWS_AT, STUDY_AT, THROUGH, VERSION_AT,
};
use names::bytes::same_bytes;
use names::class::byte_classes;
use names::date::{DATE_SIZE, is_date, not_later};
use names::name::{LONG_NAME_MOST, is_long_name, is_name_by, is_value};
use std::ops::BitOr;

// Whether all are 0. Their bits are joined with no early exit, so that the compiler takes many at a time.
fn all_zero<T: Copy + Default + PartialEq + BitOr<Output = T>>(s: &[T]) -> bool
    requires { (x y : T) → T.can_bitor x y }
    ensures { (number : T → ℕ) → IsNumbered T.is_default T.eq T.bitor_gives number → result ≡ zeros (map number s.now) }
{
    s.iter().fold(T::default(), |any, x| any | *x) == T::default()
}

// A slot holds a long name of n bytes, and zeros behind it.
fn slot_holds(slot: &[u8], n: usize) -> bool
    requires { length slot.now ≡ long_name_most }
    ensures { result ≡ slot_holds n slot.now }
{
    n <= LONG_NAME_MOST && is_long_name(&slot[..n]) && all_zero(&slot[n..])
}

// The number of file i in this column of its row. Public functions take the lent slices and no `Image`: document 01 fixes their types.
pub fn file_number(numbers: &[u32], column: usize, i: usize) -> usize
    requires { (length numbers.now ≡ numbers_size) × (column < file_row) × (i < files_most) }
    ensures { result ≡ file_number numbers.now column i }
{
    numbers[CONTENTS_SIZE + FILE_ROW * i + column] as usize
}

// Changes or bytes through the files before file f, by the column.
pub fn through_files(numbers: &[u32], column: usize, f: usize) -> usize
    requires { (length numbers.now ≡ numbers_size) × (f ≤ files_most) × (column < file_row) }
    ensures { result ≡ through_files numbers.now column f }
{
    if f == 0 {
        0
    } else {
        file_number(numbers, column, f - 1)
    }
}

// How many bytes of its slot the FileOID of file i takes.
fn oid_size(numbers: &[u32], i: usize) -> usize
    requires { (length numbers.now ≡ numbers_size) × (i < files_most) }
    ensures { (result ≡ oid_size numbers.now i) × (result ≤ long_name_most) }
{
    file_number(numbers, OID_LENGTH, i).min(LONG_NAME_MOST)
}

// The FileOID of file i, as far as its slot goes.
#[tactic(auto, using(crate::proofs::Layouts::FileReads::oid_read))]
pub fn file_oid<'a>(numbers: &[u32], bytes: &'a [u8], i: usize) -> &'a [u8]
    requires { (length numbers.now ≡ numbers_size) × (length bytes.now ≡ bytes_size) × (i < files_most) }
    ensures { result.now ≡ oid_at numbers.now bytes.now i }
{
    let at = FILES_AT + FILE_SLOT * i;
    &bytes[at..at + oid_size(numbers, i)]
}

// Whether a date is not before that of file f.
pub fn not_before(bytes: &[u8], f: usize, date: &[u8]) -> bool
    requires { (length bytes.now ≡ bytes_size) × (f < files_most) }
    ensures { result ≡ not_later (date_at bytes.now f) date.now }
{
    let kept = FILES_AT + FILE_SLOT * f + LONG_NAME_MOST;
    not_later(&bytes[kept..kept + DATE_SIZE], date)
}

// What stands behind the packed name that s begins with, if it is whole and a name.
fn behind_name<'a>(classes: &[u8], s: &'a [u8]) -> Option<&'a [u8]>
    requires { Classes classes.now }
    ensures { let behind = after_name is_name s.now in MatchOption result (behind ≡ none) (λ t. behind ≡ some t.now) }
{
    let (n, rest) = s.split_first()?;
    let (name, behind) = rest.split_at_checked(*n as usize)?;
    if is_name_by(classes, name) {
        Some(behind)
    } else {
        None
    }
}

// The same of a repeat key, which may be absent.
fn behind_repeat<'a>(classes: &[u8], s: &'a [u8]) -> Option<&'a [u8]>
    requires { Classes classes.now }
    ensures { let behind = after_name is_repeat s.now in MatchOption result (behind ≡ none) (λ t. behind ≡ some t.now) }
{
    let (n, behind) = s.split_first()?;
    if *n == 0 {
        Some(behind)
    } else {
        behind_name(classes, s)
    }
}

// What stands behind the key of so many packed names that s begins with, if it is whole and a key.
fn behind_key<'a>(classes: &[u8], s: &'a [u8], names: usize) -> Option<&'a [u8]>
    requires classes { Classes classes.now }
    requires used { IsUsed names }
    ensures { let behind = after_key is_key (read_key names s.now) in MatchOption result (behind ≡ none) (λ t. behind ≡ some t.now) }
{
    let mut rest = behind_name(classes, s)?;
    for level in 0..(names - 1) / 2 {
        let oid = behind_name(classes, rest)?;
        rest = behind_repeat(classes, oid)?;
    }
    if names % 2 == 1 {
        Some(rest)
    } else {
        behind_name(classes, rest)
    }
}

// Whether a change of this kind may be of an item, or not, with a null value, or not. The kind is a number, as document 01's rows have it.
fn value_allowed(kind: usize, item: bool, null: bool) -> bool
    ensures { result ≡ value_fits (kind_of kind) item null }
{
    match kind {
        1 => item || null,
        2 => item,
        _ => null,
    }
}

// The size of the key of a change of this kind and depth, if s holds one.
fn entry_key_size(classes: &[u8], kind: usize, depth: usize, s: &[u8]) -> Option<usize>
    requires classes { Classes classes.now }
    requires depth_range { (1 ≤ depth) × (depth ≤ 5) }
    ensures { SizeIfFits (entry_fits kind depth s.now) (names_in (names_used depth) s.now) result }
{
    let value = behind_key(classes, s, depth_names(depth))?;
    if is_value(value) && value_allowed(kind, depth == 5, value.is_empty()) {
        Some(s.len() - value.len())
    } else {
        None
    }
}

// The same by what a row says.
fn change_key_size(
    classes: &[u8],
    bytes: &[u8],
    kind: usize,
    depth: usize,
    start: usize,
    end: usize,
) -> Option<usize>
    requires classes { Classes classes.now }
    requires bytes_len { length bytes.now ≡ bytes_size }
    ensures { let bs = bytes.now in SizeIfFits (change_fits kind depth start end bs) (names_in (names_used depth) (drop (packed_at + start) bs)) result }
{
    let s = bytes[PACKED_AT..].get(start..end)?;
    if matches!(kind, 1..=3) && matches!(depth, 1..=5) {
        entry_key_size(classes, kind, depth, s)
    } else {
        None
    }
}

// Both buffers of a store, each of its size.
#[derive(Clone, Copy)]
struct Image<'a> {
    numbers: &'a [u32],
    bytes: &'a [u8],
    ghost sized: { (length numbers.now ≡ numbers_size) × (length bytes.now ≡ bytes_size) },
}

impl Image<'_> {
    // Whether files i and j have one FileOID.
    fn same_oid(&self, i: usize, j: usize) -> bool
        requires { (i < files_most) × (j < files_most) }
        ensures { let ns = self.now.numbers.now in let bs = self.now.bytes.now in result ≡ same (oid_at ns bs i) (oid_at ns bs j) }
    {
        same_bytes(
            file_oid(self.numbers, self.bytes, i),
            file_oid(self.numbers, self.bytes, j),
        )
    }

    // Whether no file before file i has its FileOID, asked from the last on as the files themselves are (`files_fit`).
    fn new_oid(&self, i: usize) -> bool
        requires { i < files_most }
        ensures { result ≡ new_oid self.now.numbers.now self.now.bytes.now i i }
    {
        (0..i).rev().all(|n| !self.same_oid(i, n))
    }

    // Whether the slot of file i holds its FileOID.
    fn oid_fits(&self, i: usize) -> bool
        requires { i < files_most }
        ensures { let ns = self.now.numbers.now in result ≡ slot_holds (oid_length ns i) (oid_slot self.now.bytes.now i) }
    {
        let at = FILES_AT + FILE_SLOT * i;
        slot_holds(
            &self.bytes[at..at + LONG_NAME_MOST],
            file_number(self.numbers, OID_LENGTH, i),
        )
    }

    // Whether file i has a date, not before that of the file before it.
    fn date_fits(&self, i: usize) -> bool
        requires { i < files_most }
        ensures { let bs = self.now.bytes.now in result ≡ (is_date (date_at bs i) and (eqb i 0 || not_later (date_at bs (i - 1)) (date_at bs i))) }
    {
        let at = FILES_AT + FILE_SLOT * i + LONG_NAME_MOST;
        let date = &self.bytes[at..at + DATE_SIZE];
        is_date(date) && (i == 0 || not_before(self.bytes, i - 1, date))
    }

    // Whether the changes and bytes through file i are those of its last change.
    fn throughs_fit(&self, i: usize) -> bool
        requires { (i < files_most) × (change_count self.now.numbers.now ≤ changes_most) }
        ensures { result ≡ throughs_fit self.now.numbers.now i }
    {
        let through = file_number(self.numbers, THROUGH, i);
        through_files(self.numbers, THROUGH, i) <= through
            && through <= self.numbers[CHANGE_COUNT] as usize
            && file_number(self.numbers, BYTES_THROUGH, i) == bytes_start(self.numbers, through)
    }

    // Whether file i fits.
    fn file_fits(&self, i: usize) -> bool
        requires { (i < files_most) × (change_count self.now.numbers.now ≤ changes_most) }
        ensures { result ≡ file_fits self.now.numbers.now self.now.bytes.now i }
    {
        self.oid_fits(i) && self.date_fits(i) && self.throughs_fit(i) && self.new_oid(i)
    }

    // Whether the first n files fit. From the last on: what was added last is what is mostly damaged, and an image that is not valid is then told at
    // once.
    fn files_fit(&self, n: usize) -> bool
        requires { (n ≤ files_most) × (change_count self.now.numbers.now ≤ changes_most) }
        ensures { result ≡ files_fit self.now.numbers.now self.now.bytes.now n }
    {
        (0..n).rev().all(|i| self.file_fits(i))
    }

    // The size of the key of row i, if the row fits.
    fn row_key_size(&self, classes: &[u8], i: usize) -> Option<usize>
        requires classes { Classes classes.now }
        requires few { i < changes_most }
        ensures { let ns = self.now.numbers.now in let bs = self.now.bytes.now in SizeIfFits (row_fits ns bs i) (key_at ns bs i) result }
    {
        change_key_size(
            classes,
            self.bytes,
            row_number(self.numbers, KIND, i),
            row_number(self.numbers, DEPTH, i),
            bytes_start(self.numbers, i),
            row_number(self.numbers, END, i),
        )
    }

    // Whether the first n rows fit, from the last on as the files. The sizes of their keys are kept, so that no key is walked again. Compiled by
    // itself, so that its loop has the registers: inside its caller, judging takes 9 percent more.
    #[inline(never)]
    fn rows_fit(&self, classes: &[u8], n: usize, sizes: &mut [u8]) -> bool
        requires classes { Classes classes.now }
        requires few { (n ≤ changes_most) × (length sizes.old ≡ changes_most) }
        ensures { let ns = self.now.numbers.now in let bs = self.now.bytes.now in Measured ns bs n sizes.new (rows_fit ns bs n) result }
    {
        for i in (0..n).rev() {
            let Some(size) = self.row_key_size(classes, i) else {
                return false;
            };
            sizes[i] = size as u8;
        }
        true
    }

    // Whether the contents agree with the rows.
    fn contents_fit(&self) -> bool
        ensures { result ≡ contents_fit self.now.numbers.now }
    {
        let files = self.numbers[FILE_COUNT] as usize;
        let changes = self.numbers[CHANGE_COUNT] as usize;
        let bytes = self.numbers[BYTE_COUNT] as usize;
        files <= FILES_MOST
            && changes <= CHANGES_MOST
            && bytes <= BYTES_MOST
            && through_files(self.numbers, THROUGH, files) == changes
            && bytes_start(self.numbers, changes) == bytes
    }

    // Whether the slots of the study and its version hold their names.
    fn names_fit(&self) -> bool
        ensures { result ≡ names_fit self.now.numbers.now self.now.bytes.now }
    {
        slot_holds(
            &self.bytes[..LONG_NAME_MOST],
            self.numbers[STUDY_AT] as usize,
        ) && slot_holds(
            &self.bytes[LONG_NAME_MOST..FILES_AT],
            self.numbers[VERSION_AT] as usize,
        )
    }

    // Whether the numbers that no file and no change uses are 0.
    fn numbers_unused(&self) -> bool
        requires { (file_count self.now.numbers.now ≤ files_most) × (change_count self.now.numbers.now ≤ changes_most) }
        ensures { result ≡ numbers_unused self.now.numbers.now }
    {
        let rows = CONTENTS_SIZE + FILE_ROW * (self.numbers[FILE_COUNT] as usize);
        let changes = ROWS_AT + CHANGE_ROW * (self.numbers[CHANGE_COUNT] as usize);
        all_zero(&self.numbers[rows..ROWS_AT]) && all_zero(&self.numbers[changes..])
    }

    // And the bytes.
    fn bytes_unused(&self) -> bool
        requires { (file_count self.now.numbers.now ≤ files_most) × (byte_count self.now.numbers.now ≤ bytes_most) }
        ensures { result ≡ bytes_unused self.now.numbers.now self.now.bytes.now }
    {
        let slots = FILES_AT + FILE_SLOT * (self.numbers[FILE_COUNT] as usize);
        let packed = PACKED_AT + (self.numbers[BYTE_COUNT] as usize);
        all_zero(&self.bytes[slots..PACKED_AT]) && all_zero(&self.bytes[packed..])
    }

    // And both.
    fn unused_zero(&self) -> bool
        requires { (file_count self.now.numbers.now ≤ files_most) × (change_count self.now.numbers.now ≤ changes_most) × (byte_count self.now.numbers.now ≤ bytes_most) }
        ensures { result ≡ unused_zero self.now.numbers.now self.now.bytes.now }
    {
        self.numbers_unused() && self.bytes_unused()
    }
}

// Whether an image is laid out as document 01 says, and the sizes of its changes' keys.
pub fn laid_out(numbers: &[u32], bytes: &[u8], sizes: &mut [u8]) -> bool
    requires { (length numbers.now ≡ numbers_size) × (length bytes.now ≡ bytes_size) × (length sizes.old ≡ changes_most) }
    ensures { let ns = numbers.now in let bs = bytes.now in Measured ns bs (change_count ns) sizes.new (laid_out ns bs) result }
{
    let changes = numbers[CHANGE_COUNT] as usize;
    let image = Image { numbers, bytes };
    image.contents_fit()
        && image.names_fit()
        && image.files_fit(numbers[FILE_COUNT] as usize)
        && image.rows_fit(&byte_classes(), changes, sizes)
        && image.unused_zero()
}
