ghost use Rattle.std.specs.Prelude.{◌≡◌, ◌≤◌, length, drop};
ghost use Rattle.names.specs.code.ByteClasses.{Classes};
ghost use Rattle.store.specs.Answer.{accepted};
ghost use Rattle.store.specs.Calls.{outcome};
ghost use Rattle.store.specs.Image.{image};
ghost use Rattle.store.specs.Outcomes.{outcome_of, buffers};
ghost use Rattle.store.specs.code.Refusals.{answer_of};
ghost use Rattle.reader.specs.Import.{file_most, body, import_call};
ghost use Rattle.reader.specs.code.ElementNames.{Names};
ghost use Rattle.reader.specs.code.Reads.{ReadTo};
ghost use Rattle.reader.specs.code.FileRead.{taken_at, FileTo, Ready};
ghost use Rattle.store.specs.code.Pending.{machine_of, Begins};

use crate::act::act;
use crate::cursor::Cursor;
use crate::element::element_names;
use crate::entity::{hold_lengths, hold_names};
use crate::odm::{HeaderPlaces, open_odm};
use crate::open_elements::OpenElements;
use crate::tell::{tell_tag, white_to_end};
use names::bytes::begins_at;
use names::class::byte_classes;
use names::key::Key;
use store::answer::{Answer, Refusal};
use store::pending::{Pending, drop_added, file_added, load_image};
use store::replay::LIVE_MOST;
use store::sizes::{CHANGE_COUNT, buffers_sized};

// "At most 262,144 bytes."
const FILE_MOST: usize = 262144;

// The place behind the declaration, where the file begins with it.
fn body_start(s: &[u8]) -> usize
    ensures { (drop result s.now ≡ body s.now) × (result ≤ length s.now) }
{
    if begins_at(s, 0, b"<?xml version=\"1.0\" encoding=\"UTF-8\"?>") {
        38
    } else {
        0
    }
}

// Reads the tags below ODM from a place on to its close.
fn read_tags(
    classes: &[u8],
    names: &[u8],
    numbers: &mut [u32],
    bytes: &mut [u8],
    index: &mut [u32],
    pending: &mut Pending,
    s: &[u8],
    mut cursor: Cursor,
    snapshot: bool,
) -> Result<(), Refusal>
    requires classes { Classes classes.now × Names names.now }
    requires begins { Begins numbers.old bytes.old index.old pending.old }
    requires at_in_bounds { cursor.at ≤ length s.now }
    requires s_len_bound { length s.now ≤ file_most }
    ensures { ReadTo numbers.old bytes.old s.now cursor.at snapshot numbers.new bytes.new pending.new result }
{
    let mut elements = OpenElements::none();
    let mut key = Key::made();
    'tags: loop {
        let t = cursor.step(classes, names, s, elements.level + 1);
        let told = match tell_tag(classes, names, s, t, snapshot, elements)? {
            Some(told) => told,
            None => return Ok(()),
        };
        hold_names(&mut key.names, s, told.own);
        hold_lengths(&mut key.lens, told.own);
        key.depth = told.own.depth;
        let Some(taken) = act(
            numbers,
            bytes,
            index,
            *pending,
            s,
            t,
            Ok(Some(told)),
            key.depth,
            &key.names,
            &key.lens,
        )?
        else {
            return Ok(());
        };
        *pending = taken;
        elements = told.elements;
        cursor = told.content.next;
    }
}

// Reads a file, and answers what its ODM tag says. What was taken of it is pending, where it is refused, too.
fn read_file(
    classes: &[u8],
    names: &[u8],
    numbers: &mut [u32],
    bytes: &mut [u8],
    index: &mut [u32],
    pending: &mut Pending,
    s: &[u8],
) -> Result<HeaderPlaces, Refusal>
    requires classes { Classes classes.now × Names names.now }
    requires begins { Begins numbers.old bytes.old index.old pending.old }
    requires s_len_bound { length s.now ≤ file_most }
    ensures { FileTo numbers.old bytes.old s.now numbers.new bytes.new pending.new result }
{
    let t = Cursor { at: body_start(s) }.step(classes, names, s, 0);
    // It does not begin with an opening tag.
    if 2 <= t.kind {
        return Err(Refusal::WrittenForm);
    }
    let head = open_odm(classes, names, numbers, bytes, s, t)?;
    if t.kind == 0 {
        read_tags(
            classes,
            names,
            numbers,
            bytes,
            index,
            pending,
            s,
            t.next,
            head.snapshot,
        )?;
    } else {
        white_to_end(classes, s, t.next.at)?;
    }
    Ok(head)
}

// Files what an accepted file added, and counts it.
fn keep_file(
    numbers: &mut [u32],
    bytes: &mut [u8],
    s: &[u8],
    pending: Pending,
    head: HeaderPlaces,
) -> u32
    requires { Ready numbers.old bytes.old s.now pending head }
    ensures { outcome_of (answer_of (Ok result)) numbers.new bytes.new ≡ outcome (image (machine_of numbers.old bytes.old)) (accepted (taken_at numbers.old bytes.old s.now pending head)) }
{
    let before = numbers[CHANGE_COUNT] as usize;
    let count = (pending.changes - before) as u32;
    file_added(
        numbers,
        bytes,
        pending,
        &s[head.oid..head.oid_end],
        &s[head.date..head.date_end],
    );
    count
}

// Takes a file on a valid image: files what an accepted one added, and drops again what a refused one did.
fn import_valid(
    numbers: &mut [u32],
    bytes: &mut [u8],
    index: &mut [u32],
    mut pending: Pending,
    file: &[u8],
) -> Result<u32, Refusal>
    requires { Begins numbers.old bytes.old index.old pending }
    ensures { outcome_of (answer_of result) numbers.new bytes.new ≡ import_call (buffers numbers.old bytes.old) file.now }
{
    if FILE_MOST < file.len() {
        return Err(Refusal::TooLong);
    }
    let classes = byte_classes();
    let names = element_names();
    match read_file(&classes, &names, numbers, bytes, index, &mut pending, file) {
        Ok(head) => Ok(keep_file(numbers, bytes, file, pending, head)),
        Err(refusal) => {
            drop_added(numbers, bytes, pending);
            Err(refusal)
        }
    }
}

// The same on any buffers.
fn import_file(numbers: &mut [u32], bytes: &mut [u8], file: &[u8]) -> Result<u32, Refusal>
    ensures { outcome_of (answer_of result) numbers.new bytes.new ≡ import_call (buffers numbers.old bytes.old) file.now }
{
    buffers_sized(numbers, bytes)?;
    let mut index = [0u32; LIVE_MOST];
    let pending = load_image(numbers, bytes, &mut index)?;
    import_valid(numbers, bytes, &mut index, pending, file)
}

// Takes a file.
pub fn import(numbers: &mut [u32], bytes: &mut [u8], file: &[u8]) -> Answer
    ensures { outcome_of result numbers.new bytes.new ≡ import_call (buffers numbers.old bytes.old) file.now }
{
    Answer::from(import_file(numbers, bytes, file))
}
