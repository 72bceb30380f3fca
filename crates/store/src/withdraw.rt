ghost use Rattle.std.specs.Prelude.{◌≡◌};
ghost use Rattle.store.specs.Calls.{outcome, withdraw, withdraw_call};
ghost use Rattle.store.specs.Image.{machine_in};
ghost use Rattle.store.specs.Outcomes.{outcome_of, buffers};
ghost use Rattle.store.specs.code.Refusals.{answer_of};
ghost use Rattle.store.specs.code.Withdrawal.{Valid, LastFile, Struck};

use crate::answer::{Answer, Refusal};
use crate::layout::through_files;
use crate::sizes::{BYTE_COUNT, BYTES_THROUGH, CHANGE_COUNT, THROUGH, buffers_sized};
use crate::standing::{last_file, oid_is};
use crate::valid::is_valid;
use crate::write::{clear_changes, unfile};

// Strikes file f, the last, and returns how many changes went with it.
fn strike_file(numbers: &mut [u32], bytes: &mut [u8], f: usize) -> u32
    requires { LastFile numbers.old bytes.old f }
    ensures { Struck numbers.old bytes.old f result numbers.new bytes.new }
{
    let c = through_files(numbers, THROUGH, f);
    let b = through_files(numbers, BYTES_THROUGH, f);
    let d = numbers[CHANGE_COUNT] as usize;
    let e = numbers[BYTE_COUNT] as usize;
    unfile(numbers, bytes, f, c, b);
    clear_changes(numbers, bytes, c, d, b, e);
    (d - c) as u32
}

// Strikes the last standing file of a valid image, if it has this FileOID.
pub fn withdraw_valid(
    numbers: &mut [u32],
    bytes: &mut [u8],
    file_oid: &[u8],
) -> Result<u32, Refusal>
    requires { Valid numbers.old bytes.old }
    ensures { outcome_of (answer_of result) numbers.new bytes.new ≡ outcome (buffers numbers.old bytes.old) (withdraw (machine_in (buffers numbers.old bytes.old)) file_oid.now) }
{
    let f = last_file(numbers).ok_or(Refusal::NotLast)?;
    if oid_is(numbers, bytes, f, file_oid) {
        Ok(strike_file(numbers, bytes, f))
    } else {
        Err(Refusal::NotLast)
    }
}

// The same on any buffers.
fn withdraw_last(numbers: &mut [u32], bytes: &mut [u8], file_oid: &[u8]) -> Result<u32, Refusal>
    ensures { outcome_of (answer_of result) numbers.new bytes.new ≡ withdraw_call (buffers numbers.old bytes.old) file_oid.now }
{
    buffers_sized(numbers, bytes)?;
    if is_valid(numbers, bytes) {
        withdraw_valid(numbers, bytes, file_oid)
    } else {
        Err(Refusal::NotValid)
    }
}

// Strikes the last standing file, if it has this FileOID.
pub fn withdraw(numbers: &mut [u32], bytes: &mut [u8], file_oid: &[u8]) -> Answer
    ensures { outcome_of result numbers.new bytes.new ≡ withdraw_call (buffers numbers.old bytes.old) file_oid.now }
{
    Answer::from(withdraw_last(numbers, bytes, file_oid))
}
