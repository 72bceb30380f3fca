ghost use Rattle.std.specs.Prelude.{◌≡◌, ◌+◌, ◌-◌, ◌≤◌, ◌<◌, length, take, drop, SomeIff};
ghost use Rattle.names.specs.Order.{same};
ghost use Rattle.names.specs.Pick.{◌and◌};
ghost use Rattle.store.specs.Image.{numbers_size};
ghost use Rattle.store.specs.code.Layout.{file_count, oid_at};
ghost use Rattle.store.specs.Machine.{standing, last_filed};
ghost use Rattle.store.specs.code.Withdrawal.{Valid};
ghost use Rattle.store.specs.code.Standing.{is_last, not_before, FileStands};
ghost use Rattle.store.specs.code.Pending.{machine_of, Taking};

use crate::layout::{file_oid, not_before};
use crate::pending::Pending;
use crate::sizes::{FILE_COUNT, STUDY_AT, VERSION_AT};
use names::bytes::same_bytes;
use names::name::LONG_NAME_MOST;

// The place of the last standing file, if one stands.
pub fn last_file(numbers: &[u32]) -> Option<usize>
    requires { length numbers.now ≡ numbers_size }
    ensures { SomeIff result (0 < file_count numbers.now) (file_count numbers.now - 1) }
{
    (numbers[FILE_COUNT] as usize).checked_sub(1)
}

// Whether file f has this FileOID.
pub fn oid_is(numbers: &[u32], bytes: &[u8], f: usize, oid: &[u8]) -> bool
    requires { FileStands numbers.now bytes.now f }
    ensures { result ≡ same oid.now (oid_at numbers.now bytes.now f) }
{
    same_bytes(oid, file_oid(numbers, bytes, f))
}

// Whether a FileOID is standing. From the last on: a file that is sent again is mostly the last one.
pub fn is_standing(numbers: &[u32], bytes: &[u8], oid: &[u8]) -> bool
    requires { Valid numbers.now bytes.now }
    ensures { result ≡ standing oid.now (machine_of numbers.now bytes.now).files }
{
    let files = numbers[FILE_COUNT] as usize;
    for f in (0..files).rev() {
        if oid_is(numbers, bytes, f, oid) {
            return true;
        }
    }
    false
}

// Whether a FileOID is the last standing one.
pub fn is_last_oid(numbers: &[u32], bytes: &[u8], oid: &[u8]) -> bool
    requires { Valid numbers.now bytes.now }
    ensures { result ≡ is_last oid.now (last_filed (machine_of numbers.now bytes.now).files) }
{
    last_file(numbers).is_some_and(|f| oid_is(numbers, bytes, f, oid))
}

// Whether a date is not before the last kept one.
pub fn not_before_last(numbers: &[u32], bytes: &[u8], date: &[u8]) -> bool
    requires { Valid numbers.now bytes.now }
    ensures { result ≡ not_before (last_filed (machine_of numbers.now bytes.now).files) date.now }
{
    last_file(numbers).is_none_or(|f| not_before(bytes, f, date))
}

// How many files stand.
pub fn file_count(numbers: &[u32], bytes: &[u8]) -> usize
    requires { Valid numbers.now bytes.now }
    ensures { result ≡ length (machine_of numbers.now bytes.now).files }
{
    numbers[FILE_COUNT] as usize
}

// Whether n bytes of a buffer, from a place on, are this text.
fn text_stands(bytes: &[u8], at: usize, n: usize, text: &[u8]) -> bool
    requires { at + n ≤ length bytes.now }
    ensures { result ≡ same (take n (drop at bytes.now)) text.now }
{
    same_bytes(&bytes[at..at + n], text)
}

// Whether these are the store's study and its version.
pub fn is_study(
    numbers: &[u32],
    bytes: &[u8],
    index: &[u32],
    t: Pending,
    study: &[u8],
    version: &[u8],
) -> bool
    requires { Taking numbers.now bytes.now index.now t }
    ensures { let m = machine_of numbers.now bytes.now in result ≡ (same m.study study.now and same m.version version.now) }
{
    text_stands(bytes, 0, numbers[STUDY_AT] as usize, study)
        && text_stands(bytes, LONG_NAME_MOST, numbers[VERSION_AT] as usize, version)
}
