// The four calls for C, which include/odm_store.h documents. Each is the call of the same name of the crate snapshot, under its clauses.
// They stand twice for the C interface: C wants them exported from a static library, which no crate can use.
#![tactic(auto)]

ghost use Rattle.std.specs.Prelude.{◌≡◌};
ghost use Rattle.store.specs.Calls.{open_call, withdraw_call};
ghost use Rattle.store.specs.Outcomes.{outcome_of, buffers};
ghost use Rattle.reader.specs.Import.{import_call};
ghost use Rattle.snapshot.specs.Snapshot.{snapshot_call};
ghost use Rattle.snapshot.specs.Snapshot.{reply_of};

use snapshot::calls;
use store::answer::Answer;

// Open.
#[unsafe(no_mangle)]
pub extern "C" fn odm_open(
    numbers: &mut [u32],
    bytes: &mut [u8],
    study: &[u8],
    version: &[u8],
) -> Answer
    ensures { outcome_of result numbers.new bytes.new ≡ open_call (buffers numbers.old bytes.old) study.now version.now }
{
    calls::odm_open(numbers, bytes, study, version)
}

// Import.
#[unsafe(no_mangle)]
pub extern "C" fn odm_import(numbers: &mut [u32], bytes: &mut [u8], file: &[u8]) -> Answer
    ensures { outcome_of result numbers.new bytes.new ≡ import_call (buffers numbers.old bytes.old) file.now }
{
    calls::odm_import(numbers, bytes, file)
}

// Withdraw.
#[unsafe(no_mangle)]
pub extern "C" fn odm_withdraw(numbers: &mut [u32], bytes: &mut [u8], file_oid: &[u8]) -> Answer
    ensures { outcome_of result numbers.new bytes.new ≡ withdraw_call (buffers numbers.old bytes.old) file_oid.now }
{
    calls::odm_withdraw(numbers, bytes, file_oid)
}

// Snapshot.
#[unsafe(no_mangle)]
pub extern "C" fn odm_snapshot(
    numbers: &[u32],
    bytes: &[u8],
    file_oid: &[u8],
    date: &[u8],
    output: &mut [u8],
) -> Answer
    ensures { reply_of result (buffers numbers.now bytes.now) output.new ≡ snapshot_call (buffers numbers.now bytes.now) file_oid.now date.now output.old }
{
    calls::odm_snapshot(numbers, bytes, file_oid, date, output)
}
