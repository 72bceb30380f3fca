ghost use Rattle.std.specs.Prelude.{◌≡◌, true, ◌+◌, ◌≤◌, ◌<◌, length, is_ok};
ghost use Rattle.names.specs.Key.{names_in};
ghost use Rattle.names.specs.code.KeyWhole.{WholeKey};
ghost use Rattle.store.specs.Calls.{opened};
ghost use Rattle.store.specs.Change.{live};
ghost use Rattle.store.specs.Image.{numbers_size, bytes_size, image, change_in};
ghost use Rattle.store.specs.code.Index.{Indexed};
ghost use Rattle.store.specs.Machine.{files_most, bytes_most, live_most, is_filed};
ghost use Rattle.store.specs.Outcomes.{buffers};
ghost use Rattle.store.specs.code.Rows.{first_changes};
ghost use Rattle.store.specs.code.With.{filing};
ghost use Rattle.store.specs.code.Pending.{machine_of, added_at, Loaded, Taking, loaded_as, LoadedBy, NextChange, NextRow, LooksUp, room_for, changes_with, added_as, Grown, AddedTo};

use crate::answer::Refusal;
use crate::decide::Kind;
use crate::index::{find, insert};
use crate::replay::{LIVE_MOST, LiveIndex, step_found};
use crate::sizes::{BYTE_COUNT, BYTES_MOST, CHANGE_COUNT, CHANGES_MOST, FILE_COUNT};
use crate::valid::judge_image;
use crate::write::{append_change, clear_changes, close_file};

// The changes of a file while it is read, behind the machine's own: with them so many changes of so many bytes stand in the buffers, the index has so many
// entries, and in it the next key is looked for at the finger first.
#[derive(Clone, Copy)]
pub struct Pending {
    pub changes: usize,
    pub bytes: usize,
    pub entries: usize,
    pub finger: usize,
}

// Judges the image before a file is taken.
pub fn load_image(numbers: &[u32], bytes: &[u8], index: &mut [u32]) -> Result<Pending, Refusal>
    requires { (length numbers.now ≡ numbers_size) × (length bytes.now ≡ bytes_size) × (length index.old ≡ live_most) }
    ensures result_value { loaded_as (buffers numbers.now bytes.now) result ≡ opened (buffers numbers.now bytes.now) }
    ensures loaded_by { LoadedBy numbers.now bytes.now index.new result }
{
    let mut sizes = [0u8; CHANGES_MOST];
    let live = judge_image(numbers, bytes, index, &mut sizes)?;
    Ok(Pending {
        changes: numbers[CHANGE_COUNT] as usize,
        bytes: numbers[BYTE_COUNT] as usize,
        entries: live.entries,
        finger: live.finger,
    })
}

// The place in the index of the entity whose key is the k packed names of a text, if it is live, or else the place where it belongs.
pub fn look_up(
    numbers: &[u32],
    bytes: &[u8],
    index: &[u32],
    t: Pending,
    key: &[u8],
    k: usize,
) -> Result<usize, usize>
    requires taking { Taking numbers.now bytes.now index.now t }
    requires whole_key { WholeKey key.now 0 k (length key.now) }
    ensures live_value { is_ok result ≡ live (first_changes numbers.now bytes.now t.changes) (names_in k key.now) }
    ensures looks_up { LooksUp numbers.now bytes.now index.now t (names_in k key.now) result }
{
    find(
        numbers,
        bytes,
        t.changes,
        index,
        t.entries,
        t.finger,
        key,
        0,
        k,
        key.len(),
    )
}

// Whether one more change of this kind, of so many bytes, passes no limit.
#[tactic(auto, unfolding(crate::specs::code::Pending::room_for, crate::specs::Change::kind_number, names::specs::Pick::pick))]
fn has_room(t: Pending, kind: u32, size: usize) -> bool
    requires { t.bytes ≤ bytes_most }
    ensures { result ≡ room_for t kind size }
{
    t.changes < CHANGES_MOST
        && size <= BYTES_MOST - t.bytes
        && (kind != u32::from(Kind::Make) || t.entries < LIVE_MOST)
}

// Applies row c to the index of the changes before it, in which its key stands or belongs. It is allowed in its turn, so a key that is not live is made, its
// parent is not asked for, and a step always gives the next index.
fn index_change(
    numbers: &[u32],
    bytes: &[u8],
    index: &mut [u32],
    c: usize,
    n: usize,
    found: Result<usize, usize>,
) -> LiveIndex
    requires { NextRow numbers.now bytes.now c index.old n found }
    ensures { Indexed numbers.now bytes.now (c + 1) index.new result.entries }
{
    match found {
        Ok(_) => step_found(numbers, bytes, c, index, n, found).unwrap(),
        Err(place) => {
            insert(index, n, place, c as u32);
            LiveIndex {
                entries: n + 1,
                finger: place + 1,
            }
        }
    }
}

// Writes a change for which there is room behind the others, and applies it to the index.
fn push_change(
    numbers: &mut [u32],
    bytes: &mut [u8],
    index: &mut [u32],
    t: Pending,
    lookup: Result<usize, usize>,
    kind: u32,
    depth: u32,
    text: &[u8],
) -> Pending
    requires taking { Taking numbers.old bytes.old index.old t }
    requires next_change { NextChange numbers.old bytes.old t kind depth text.now }
    requires looks_up { LooksUp numbers.old bytes.old index.old t (change_in kind depth text.now).key lookup }
    requires text_value { room_for t kind (length text.now) ≡ true }
    ensures { Grown numbers.old bytes.old t (change_in kind depth text.now) numbers.new bytes.new index.new result }
{
    let c = t.changes;
    let b = t.bytes;
    append_change(numbers, bytes, c, b, kind, depth, text);
    let state = index_change(numbers, bytes, index, c, t.entries, lookup);
    Pending {
        changes: c + 1,
        bytes: b + text.len(),
        entries: state.entries,
        finger: state.finger,
    }
}

// Adds a change behind the others: "a limit is checked as each change is added". Its kind and depth are the numbers of its row.
pub fn add_change(
    numbers: &mut [u32],
    bytes: &mut [u8],
    index: &mut [u32],
    t: Pending,
    lookup: Result<usize, usize>,
    kind: u32,
    depth: u32,
    text: &[u8],
) -> Result<Pending, Refusal>
    requires taking { Taking numbers.old bytes.old index.old t }
    requires next_change { NextChange numbers.old bytes.old t kind depth text.now }
    requires looks_up { LooksUp numbers.old bytes.old index.old t (change_in kind depth text.now).key lookup }
    ensures result_after { added_as numbers.new bytes.new result ≡ changes_with (first_changes numbers.old bytes.old t.changes) (change_in kind depth text.now) }
    ensures added_to { AddedTo numbers.old bytes.old t (change_in kind depth text.now) numbers.new bytes.new index.new result }
{
    if has_room(t, kind, text.len()) {
        Ok(push_change(numbers, bytes, index, t, lookup, kind, depth, text))
    } else {
        Err(Refusal::Limit)
    }
}

// Takes the file's changes so far away again.
pub fn drop_added(numbers: &mut [u32], bytes: &mut [u8], t: Pending)
    requires { Loaded numbers.old bytes.old t }
    ensures { buffers numbers.new bytes.new ≡ image (machine_of numbers.old bytes.old) }
{
    let c = numbers[CHANGE_COUNT] as usize;
    let b = numbers[BYTE_COUNT] as usize;
    clear_changes(numbers, bytes, c, t.changes, b, t.bytes);
}

// Files the changes that were added, under a FileOID and a date.
pub fn file_added(numbers: &mut [u32], bytes: &mut [u8], t: Pending, oid: &[u8], date: &[u8])
    requires loaded { Loaded numbers.old bytes.old t }
    requires bytes_len_bound { length (machine_of numbers.old bytes.old).files < files_most }
    requires changes_value { is_filed record { oid = oid.now; date = date.now; changes = added_at numbers.old bytes.old t.changes } ≡ true }
    ensures { buffers numbers.new bytes.new ≡ image (filing (machine_of numbers.old bytes.old) record { oid = oid.now; date = date.now; changes = added_at numbers.old bytes.old t.changes }) }
{
    let f = numbers[FILE_COUNT] as usize;
    close_file(numbers, bytes, f, oid, date, t.changes, t.bytes);
}
