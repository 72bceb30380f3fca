ghost use Rattle.std.specs.Prelude.{◌≡◌, [], ◌+◌, ◌≤◌, ◌<◌, length, get_or};
ghost use Rattle.names.specs.Bytes.{bytes};
ghost use Rattle.names.specs.Name.{value_most};
ghost use Rattle.names.specs.code.Wrote.{Wrote};
ghost use Rattle.reader.specs.Element.{get, or_else};
ghost use Rattle.reader.specs.code.Placed.{Placed};
ghost use Rattle.reader.specs.code.Found.{attrs_of};
ghost use Rattle.reader.specs.code.Answered.{Attributed};
ghost use Rattle.reader.specs.code.Places.{part};
ghost use Rattle.reader.specs.code.Bodies.{BodyStretch};
ghost use Rattle.reader.specs.code.Telling.{content_text, Holding};
ghost use Rattle.reader.specs.code.Acting.{tag_value};
ghost use Rattle.reader.specs.code.EntityTags.{own_slot, tag_depth, own_at, own_of, OwnStretches, Slight, Short, names_filled, lengths_filled, given_at};

use crate::body::{Content, as_written, decode_value};
use crate::cursor::TagRead;
use crate::values::all_alone;
use names::bytes::put_bytes;
use names::key::{names_used, put_length, put_slot, slot_end};
use names::name::VALUE_MOST;
use names::text::decode;

// Room for a key's bytes, of which the last slot is moved whole, and for a value behind.
pub const TEXT_ROOM: usize = 192;

// The names that a tag's element adds to the key around it: their first slot, and where they stand in the file, as far as a slot holds them; and the depth of
// the entity that the tag opens or closes (0: none, as in a key). Absent names are empty stretches and no Options: a slot is then put empty in one way with all others.
#[derive(Clone, Copy)]
pub struct Own {
    pub slot: usize,
    pub oid: usize,
    pub oid_end: usize,
    pub repeat: usize,
    pub repeat_end: usize,
    pub depth: u8,
}

// The first slot of an element of a level's own names. ClinicalData has none, and below an item there is none.
#[tactic(auto, unfolding(crate::specs::code::EntityTags::own_slot, names::specs::Pick::pick))]
fn own_slot(level: usize) -> usize
    requires { level ≤ 6 }
    ensures { result ≡ own_slot level }
{
    if level == 0 {
        8
    } else {
        names_used((level - 1) as u8)
    }
}

// Two stretches of the file, an OID and a repeat key, each cut to what a slot holds; an empty one is absent.
fn own_stretches(depth: u8, slot: usize, a: usize, b: usize, c: usize, d: usize) -> Own
    requires { (a ≤ b) × (c ≤ d) }
    ensures { result ≡ own_at depth slot a b c d }
{
    Own {
        slot,
        oid: a,
        oid_end: slot_end(a, b),
        repeat: c,
        repeat_end: slot_end(c, d),
        depth,
    }
}

// The depth of the entity that a tag opens or closes; 0: none.
#[tactic(auto, unfolding(crate::specs::code::EntityTags::tag_depth, names::specs::Pick::pick))]
fn tag_depth(kind: u8, level: usize) -> u8
    requires { level ≤ 6 }
    ensures { result ≡ tag_depth kind level }
{
    if kind == 2 {
        level.saturating_sub(1) as u8
    } else {
        level as u8
    }
}

// The names of a tag's own. A closing tag has none, and a subject and an item no repeat key.
pub fn own_names(t: TagRead, level: usize) -> Own
    requires { (level ≤ 6) × ((t.kind ≡ 2 → ⊥) → OwnStretches t) }
    ensures { result ≡ own_of t level }
{
    let slot = own_slot(level);
    let depth = tag_depth(t.kind, level);
    if t.kind == 2 {
        return own_stretches(depth, slot, 0, 0, 0, 0);
    }
    let found = t.found;
    let a = found.starts[0];
    let b = found.ends[0];
    let c = found.starts[1];
    let d = found.ends[1];
    if level == 1 || level == 5 || c == 0 {
        own_stretches(depth, slot, a, b, 0, 0)
    } else {
        own_stretches(depth, slot, a, b, c, d)
    }
}

// Puts them into their slots of the names that are held,
pub fn hold_names(held: &mut [u8; 128], s: &[u8], own: Own)
    requires { Short s.now own }
    ensures { held.new ≡ names_filled held.old s.now own }
{
    let i = own.slot;
    let a = own.oid;
    let b = own.oid_end;
    put_slot(held, i, &s[a..b]);
    let c = own.repeat;
    let d = own.repeat_end;
    put_slot(held, i + 1, &s[c..d]);
}

// and their lengths beside. In place: handed in and back, the eight would be read as one number right after single bytes of it were written, for which the
// processor waits; a large import then takes a tenth longer.
pub fn hold_lengths(lens: &mut [u8; 8], own: Own)
    requires { Slight own }
    ensures { lens.new ≡ lengths_filled lens.old own }
{
    let i = own.slot;
    put_length(lens, i, (own.oid_end - own.oid) as u8);
    put_length(lens, i + 1, (own.repeat_end - own.repeat) as u8);
}

// An attribute of an opening tag, as it stands in the file, by its place in the element's row; nothing where it is absent.
pub fn attribute_text(s: &[u8], t: TagRead, j: usize) -> &[u8]
    requires { Attributed s.now t × (j < 8) }
    ensures { result.now ≡ part s.now (get_or t.found.starts j 0) (get_or t.found.ends j 0) }
{
    let found = t.found;
    let a = found.starts[j];
    let b = found.ends[j];
    &s[a..b]
}

// Writes an item's value into out from `at` on, and returns the place behind it. Other entities have none. Most values have no entity: they are written straight
// from the file.
fn put_value(s: &[u8], t: TagRead, out: &mut [u8], at: usize) -> usize
    requires le_element { (2 ≤ t.element) × (at + value_most ≤ length out.old) }
    requires attributed { Attributed s.now t }
    requires placed { Placed t.element (attrs_of s.now t) }
    ensures { Wrote out.old at (or_else [] (get (bytes "Value") (attrs_of s.now t))) out.new result }
{
    if t.element != 6 {
        return at;
    }
    let found = t.found;
    if found.starts[1] == 0 {
        return at;
    }
    let v = attribute_text(s, t, 1);
    if all_alone(v) {
        return put_bytes(out, at, v);
    }
    let mut value = [0; VALUE_MOST];
    match decode(v, &mut value) {
        Ok(n) => put_bytes(out, at, &value[0..n]),
        Err(_) => at,
    }
}

// Writes a typed item's body likewise.
fn put_body(s: &[u8], c: Content, out: &mut [u8], at: usize) -> usize
    requires value_most_in_bounds { at + value_most ≤ length out.old }
    requires body_stretch { BodyStretch s.now c.start c.end c.kind }
    requires c_len_bound { length (content_text s.now c) ≤ value_most }
    ensures { Wrote out.old at (content_text s.now c) out.new result }
{
    let a = c.start;
    let e = c.end;
    if as_written(s, a, e, c.kind) {
        return put_bytes(out, at, &s[a..e]);
    }
    let mut value = [0; VALUE_MOST];
    match decode_value(&s[a..e], &mut value) {
        Some(n) => put_bytes(out, at, &value[0..n]),
        None => at,
    }
}

// The value that a tag gives its entity: of a typed item it is the body.
pub fn put_given(s: &[u8], t: TagRead, c: Content, out: &mut [u8], at: usize) -> usize
    requires le_element { (2 ≤ t.element) × (at + value_most ≤ length out.old) }
    requires attributed { Attributed s.now t }
    requires placed { Placed t.element (attrs_of s.now t) }
    requires holding { Holding s.now t.element c }
    ensures { Wrote out.old at (tag_value s.now t c) out.new result }
{
    if 6 < t.element {
        return put_body(s, c, out, at);
    }
    put_value(s, t, out, at)
}

// Whether an item's Value or IsNull stands in its tag; a typed item's body always does.
#[tactic(auto, unfolding(crate::specs::code::EntityTags::given_at, names::specs::Pick::pick))]
pub fn is_given(t: TagRead) -> bool
    ensures { result ≡ given_at t.element t.found.starts }
{
    let found = t.found;
    6 < t.element || (t.element == 6 && (found.starts[1] != 0 || found.starts[2] != 0))
}
