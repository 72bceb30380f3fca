ghost use Rattle.std.specs.Prelude.{◌≡◌, true, ◌+◌, ◌≤◌, ◌<◌, length, drop};
ghost use Rattle.names.specs.Key.{names_used, packed};
ghost use Rattle.store.specs.Change.{is_change};
ghost use Rattle.store.specs.code.Entry.{Sized};
ghost use Rattle.store.specs.Image.{numbers_size, bytes_size};
ghost use Rattle.store.specs.code.Index.{position_in, Stands, Belongs, table_at, Indexed, Applied, Replayed};
ghost use Rattle.store.specs.code.Layout.{row_fits, rows_fit};
ghost use Rattle.store.specs.Machine.{changes_most, live_most};
ghost use Rattle.store.specs.code.Deciding.{kind_said};
ghost use Rattle.store.specs.Image.{kind_of};
ghost use Rattle.store.specs.code.Rows.{packed_at, kind_at, depth_at, key_start, key_at, change_at};
ghost use Rattle.store.specs.code.Turn.{rooted};

use crate::decide::Kind;
use crate::index::{entry_covered, find, insert, remove, run_end};
use crate::rows::{depth_names, row_key, row_number};
use crate::sizes::{DEPTH, KIND};

// The most entities that are live at a time.
pub const LIVE_MOST: usize = 512;

// A place that no index has: a number too, since `find` takes a number.
const NO_FINGER: usize = 1024;

// The index once changes are applied: how many entities are live, and the place where the next change's key is looked for first.
#[derive(Clone, Copy)]
pub struct LiveIndex {
    pub entries: usize,
    pub finger: usize,
}

// Change c of the rows: its key, of so many names, is packed at a place.
#[derive(Clone, Copy)]
struct Row<'a> {
    numbers: &'a [u32],
    bytes: &'a [u8],
    c: usize,
    at: usize,
    names: usize,
    ghost sized: { (length numbers.now ≡ numbers_size) × (length bytes.now ≡ bytes_size) × (c < changes_most) × (at ≤ length bytes.now) },
    ghost formed: { is_change (change_at numbers.now bytes.now c) ≡ true },
    ghost placed: { drop at bytes.now ≡ drop (packed_at + key_start numbers.now c) bytes.now },
    ghost counted: { names ≡ names_used (depth_at numbers.now c) },
}

impl<'a> Row<'a> {
    // Row c of the changes, which fits.
    fn of(numbers: &'a [u32], bytes: &'a [u8], c: usize) -> Row<'a>
        requires sized { (length numbers.now ≡ numbers_size) × (length bytes.now ≡ bytes_size) × (c < changes_most) }
        requires fits { row_fits numbers.now bytes.now c ≡ true }
        ensures { (result.numbers.now ≡ numbers.now) × (result.bytes.now ≡ bytes.now) × (result.c ≡ c) }
    {
        let (at, names) = row_key(numbers, bytes, c);
        Row {
            numbers,
            bytes,
            c,
            at,
            names,
        }
    }

    fn kind(self) -> Kind
        ensures { kind_said result ≡ kind_of (kind_at self.entry.numbers.now self.entry.c) }
    {
        Kind::of(row_number(self.numbers, KIND, self.c))
    }

    // Whether the key, which belongs at place p, is a subject's or has a live parent: the entry before its place is then the parent or below it.
    fn parent_live(self, index: &[u32], n: usize, p: usize) -> bool
        requires indexed { Indexed self.numbers.now self.bytes.now self.c index.now n × (p ≤ n) }
        requires belongs { Belongs (key_at self.numbers.now self.bytes.now self.c) (table_at self.numbers.now self.bytes.now index.now n) p }
        ensures { result ≡ rooted (table_at self.entry.numbers.now self.entry.bytes.now index.now n) (key_at self.entry.numbers.now self.entry.bytes.now self.entry.c) }
    {
        let d = row_number(self.numbers, DEPTH, self.c);
        if d <= 1 {
            return true;
        }
        let parent = depth_names(d - 1);
        1 <= p
            && entry_covered(
                self.numbers,
                self.bytes,
                self.c,
                index,
                n,
                p - 1,
                self.bytes,
                self.at,
                parent,
            )
    }

    // Applies the change, whose key stands at place p; if it is not allowed in its turn, there is no next index.
    fn step_at(self, index: &mut [u32], n: usize, p: usize) -> Option<LiveIndex>
        requires indexed { Indexed self.numbers.now self.bytes.now self.c index.old n × (p < n) }
        requires stands { Stands (key_at self.numbers.now self.bytes.now self.c) (table_at self.numbers.now self.bytes.now index.old n) p }
        ensures { Applied self.entry.numbers.now self.entry.bytes.now self.entry.c index.new result }
    {
        match self.kind() {
            Kind::Make => None,
            Kind::Write => {
                index[p] = self.c as u32;
                Some(LiveIndex {
                    entries: n,
                    finger: p + 1,
                })
            }
            Kind::End => {
                let q = run_end(
                    self.numbers,
                    self.bytes,
                    self.c,
                    index,
                    n,
                    p + 1,
                    self.bytes,
                    self.at,
                    self.names,
                );
                remove(index, n, p, q);
                Some(LiveIndex {
                    entries: n - (q - p),
                    finger: p,
                })
            }
        }
    }

    // The same, if its key is not live and belongs at place p.
    fn step_place(self, index: &mut [u32], n: usize, p: usize) -> Option<LiveIndex>
        requires indexed { Indexed self.numbers.now self.bytes.now self.c index.old n × (p ≤ n) }
        requires belongs { Belongs (key_at self.numbers.now self.bytes.now self.c) (table_at self.numbers.now self.bytes.now index.old n) p }
        ensures { Applied self.entry.numbers.now self.entry.bytes.now self.entry.c index.new result }
    {
        match self.kind() {
            Kind::Make => {
                if LIVE_MOST <= n || !self.parent_live(index, n, p) {
                    return None;
                }
                insert(index, n, p, self.c as u32);
                Some(LiveIndex {
                    entries: n + 1,
                    finger: p + 1,
                })
            }
            Kind::Write | Kind::End => None,
        }
    }

    // Applies the change, of whose key it is known where it stands or belongs.
    fn step(self, index: &mut [u32], n: usize, found: Result<usize, usize>) -> Option<LiveIndex>
        requires indexed { Indexed self.numbers.now self.bytes.now self.c index.old n }
        requires found_value { found ≡ position_in (key_at self.numbers.now self.bytes.now self.c) (table_at self.numbers.now self.bytes.now index.old n) }
        ensures { Applied self.entry.numbers.now self.entry.bytes.now self.entry.c index.new result }
    {
        match found {
            Ok(p) => self.step_at(index, n, p),
            Err(p) => self.step_place(index, n, p),
        }
    }
}

// Applies change c to the index of the changes before it, of whose key it is known where it stands or belongs.
pub fn step_found(
    numbers: &[u32],
    bytes: &[u8],
    c: usize,
    index: &mut [u32],
    n: usize,
    found: Result<usize, usize>,
) -> Option<LiveIndex>
    requires numbers_len { (length numbers.now ≡ numbers_size) × (length bytes.now ≡ bytes_size) × (c < changes_most) }
    requires indexed { Indexed numbers.now bytes.now c index.old n }
    requires c_value { row_fits numbers.now bytes.now c ≡ true }
    requires found_value { found ≡ position_in (key_at numbers.now bytes.now c) (table_at numbers.now bytes.now index.old n) }
    ensures { Applied numbers.now bytes.now c index.new result }
{
    Row::of(numbers, bytes, c).step(index, n, found)
}

// The same, where the key, of this size, is looked for, at the finger first.
fn step_row(
    numbers: &[u32],
    bytes: &[u8],
    c: usize,
    index: &mut [u32],
    n: usize,
    finger: usize,
    size: usize,
) -> Option<LiveIndex>
    requires numbers_len { (length numbers.now ≡ numbers_size) × (length bytes.now ≡ bytes_size) × (c < changes_most) }
    requires indexed { Indexed numbers.now bytes.now c index.old n }
    requires c_value { row_fits numbers.now bytes.now c ≡ true }
    requires size_value { size ≡ length (packed (key_at numbers.now bytes.now c)) }
    ensures { Applied numbers.now bytes.now c index.new result }
{
    let row = Row::of(numbers, bytes, c);
    let found = find(
        numbers, bytes, c, index, n, finger, bytes, row.at, row.names, size,
    );
    row.step(index, n, found)
}

// The finger for the next change, by the places behind the last two: only where they went on by a little is it likely to be right. What it is does not
// matter to the answer.
fn finger_from(last: usize, next: usize) -> usize {
    if last <= next && next - last < 8 {
        next
    } else {
        NO_FINGER
    }
}

// Replays the first c changes, whose keys are of these sizes: the index of what they leave live, if each was allowed in its turn. Compiled by itself, so
// that its loop has the registers: inside its caller, judging takes 5 percent more.
#[inline(never)]
pub fn replay(
    numbers: &[u32],
    bytes: &[u8],
    c: usize,
    index: &mut [u32],
    sizes: &[u8],
) -> Option<LiveIndex>
    requires numbers_len { (length numbers.now ≡ numbers_size) × (length bytes.now ≡ bytes_size) × (c ≤ changes_most) × (length index.old ≡ live_most) }
    requires c_value { rows_fit numbers.now bytes.now c ≡ true }
    requires sized { Sized numbers.now bytes.now 0 c sizes.now }
    ensures { Replayed numbers.now bytes.now c index.new result }
{
    let mut state = LiveIndex {
        entries: 0,
        finger: 0,
    };
    let mut finger: usize = 0;
    for (i, size) in sizes[0..c].iter().enumerate() {
        let next = step_row(
            numbers,
            bytes,
            i,
            index,
            state.entries,
            finger,
            *size as usize,
        )?;
        finger = finger_from(state.finger, next.finger);
        state = next;
    }
    Some(state)
}
