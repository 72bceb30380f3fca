ghost use Rattle.std.specs.Prelude.{◌≡◌, ◌≤◌, length};
ghost use Rattle.names.specs.Date.{is_date, date_size};
ghost use Rattle.names.specs.Name.{is_long_name, long_name_most};
ghost use Rattle.names.specs.Pick.{◌and◌};
ghost use Rattle.store.specs.Image.{machine_in};
ghost use Rattle.store.specs.code.Index.{table_at, ListedRows, Indexed};
ghost use Rattle.store.specs.code.Layout.{change_count};
ghost use Rattle.store.specs.code.Refusals.{answer_of};
ghost use Rattle.store.specs.Outcomes.{buffers};
ghost use Rattle.store.specs.code.Withdrawal.{Valid};
ghost use Rattle.snapshot.specs.Snapshot.{written_to, snapshot, snapshot_call};
ghost use Rattle.snapshot.specs.code.Writing.{list_text};
ghost use Rattle.snapshot.specs.Snapshot.{reply_of};

use crate::writer::emit_snapshot;
use names::date::is_date;
use names::name::is_long_name;
use store::answer::{Answer, Refusal};
use store::replay::LIVE_MOST;
use store::sizes::{CHANGES_MOST, buffers_sized};
use store::valid::judge_image;

// Whether these can be the FileOID and the date of a snapshot.
fn is_header(file_oid: &[u8], date: &[u8]) -> bool
    ensures { result ≡ (is_long_name file_oid.now and is_date date.now) }
{
    is_long_name(file_oid) && is_date(date)
}

// How long the text with the entities of the first n rows of an index is.
fn snapshot_size(
    numbers: &[u32],
    bytes: &[u8],
    index: &[u32],
    n: usize,
    file_oid: &[u8],
    date: &[u8],
) -> usize
    requires valid { Valid numbers.now bytes.now }
    requires listed_rows { ListedRows (change_count numbers.now) index.now n }
    requires file_oid_len_bound { (length file_oid.now ≤ long_name_most) × (length date.now ≤ date_size) }
    ensures { result ≡ length (list_text (machine_in (buffers numbers.now bytes.now)) (table_at numbers.now bytes.now index.now n) file_oid.now date.now) }
{
    emit_snapshot(numbers, bytes, index, n, file_oid, date, &mut [])
}

// Writes the snapshot of a valid image, whose live entities are the first n of the index, if the output has room for it.
fn snapshot_valid(
    numbers: &[u32],
    bytes: &[u8],
    index: &[u32],
    n: usize,
    file_oid: &[u8],
    date: &[u8],
    output: &mut [u8],
) -> Result<u32, Refusal>
    requires valid { Valid numbers.now bytes.now }
    requires indexed { Indexed numbers.now bytes.now (change_count numbers.now) index.now n }
    ensures { reply_of (answer_of result) (buffers numbers.now bytes.now) output.new ≡ written_to (buffers numbers.now bytes.now) output.old (snapshot (machine_in (buffers numbers.now bytes.now)) file_oid.now date.now (length output.old)) }
{
    if !is_header(file_oid, date) {
        return Err(Refusal::Value);
    }
    let size = snapshot_size(numbers, bytes, index, n, file_oid, date);
    if output.len() < size {
        return Err(Refusal::ShortOutput);
    }
    let count = emit_snapshot(numbers, bytes, index, n, file_oid, date, output) as u32;
    Ok(count)
}

// The count of a snapshot, or what refuses it.
fn snapshot_count(
    numbers: &[u32],
    bytes: &[u8],
    file_oid: &[u8],
    date: &[u8],
    output: &mut [u8],
) -> Result<u32, Refusal>
    ensures { reply_of (answer_of result) (buffers numbers.now bytes.now) output.new ≡ snapshot_call (buffers numbers.now bytes.now) file_oid.now date.now output.old }
{
    buffers_sized(numbers, bytes)?;
    let mut index = [0u32; LIVE_MOST];
    let mut sizes = [0u8; CHANGES_MOST];
    let live = judge_image(numbers, bytes, &mut index, &mut sizes)?;
    snapshot_valid(numbers, bytes, &index, live.entries, file_oid, date, output)
}

// Writes the live entities of a store in key order, in fixed bytes, if the output has room for them.
pub fn snapshot(
    numbers: &[u32],
    bytes: &[u8],
    file_oid: &[u8],
    date: &[u8],
    output: &mut [u8],
) -> Answer
    ensures { reply_of result (buffers numbers.now bytes.now) output.new ≡ snapshot_call (buffers numbers.now bytes.now) file_oid.now date.now output.old }
{
    Answer::from(snapshot_count(numbers, bytes, file_oid, date, output))
}
