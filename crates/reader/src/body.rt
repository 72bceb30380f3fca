ghost use Rattle.std.specs.Prelude.{◌≡◌, true, false, [], ◌∷◌, ◌+◌, ◌≤◌, ◌<◌, eqb, length, drop};
ghost use Rattle.std.proofs.Math.Option.{none, some};
ghost use Rattle.names.specs.Bytes.{bytes, all};
ghost use Rattle.names.specs.Class.{is_value_byte};
ghost use Rattle.names.specs.Name.{value_most};
ghost use Rattle.names.specs.Order.{same, begins};
ghost use Rattle.names.specs.Text.{decode};
ghost use Rattle.names.specs.code.ByteClasses.{Classes};
ghost use Rattle.reader.specs.Tag.{body_by, text_body, content};
ghost use Rattle.reader.specs.Element.{element_of, or_else};
ghost use Rattle.reader.specs.Import.{file_most};
ghost use Rattle.reader.specs.code.Places.{part, is_some};
ghost use Rattle.reader.specs.code.ByteRun.{block};
ghost use Rattle.reader.specs.code.ElementNames.{Names};
ghost use Rattle.reader.specs.code.Answered.{name_of};
ghost use Rattle.reader.specs.code.Bodies.{endless, Cutting, CutTo, AsWritten, Marked, BodyRead, closed, PlainlyClosed, ClosingRead, ContentRead, ValueHeld};

use crate::cursor::{Cursor, TagRead};
use crate::scan::{BLOCK, after_byte, printable_blocks};
use crate::tag::value_to;
use crate::values::all_alone;
use names::bytes::{begins_at, same_bytes};
use names::name::{VALUE_MOST, is_text_of};
use names::text::decode;
use store::answer::Refusal;

// A body's places, and the place behind the `<` of the tag that follows it. Kind: 0 text, 1 a CDATA section, a number as in Content, which takes it over.
#[derive(Clone, Copy)]
pub struct Body {
    pub start: usize,
    pub end: usize,
    pub next: usize,
    pub kind: u8,
}

// What stands between an opening tag and its closing tag, and the place behind that one. Kind: 0 text, 1 a CDATA section.
// The kind stays a number: `as_written`, which is pub, takes it, and any byte.
#[derive(Clone, Copy)]
pub struct Content {
    pub start: usize,
    pub end: usize,
    pub next: Cursor,
    pub kind: u8,
}

// Whether three bytes are `]]>`.
#[tactic(auto, using(crate::proofs::BodyLaws::end_tests))]
fn ends_section(a: u8, b: u8, c: u8) -> bool
    ensures { result ≡ begins eqb (bytes "]]>") (a ∷ b ∷ c ∷ []) }
{
    a == b']' && b == b']' && c == b'>'
}

// Whether no `]]>` begins in a block, which is lent with the two bytes behind it. There is no early exit, so that the compiler takes many places at a time:
// `windows(3)`, compared with a text, takes 7 times as long.
fn no_end(s: &[u8]) -> bool
    requires { length s.now ≡ block + 2 }
    ensures { result ≡ endless s.now 0 block }
{
    let mut endless = true;
    for i in 0..BLOCK {
        endless &= !ends_section(s[i], s[i + 1], s[i + 2]);
    }
    endless
}

// A place up to which no `]]>` begins from at on: blocks without one. Counted by hand: each is lent with two bytes of the next, as no iterator's pieces are.
fn endless_blocks(s: &[u8], at: usize) -> usize
    requires { at ≤ length s.now }
    ensures { Cutting s.now at result }
{
    let mut i = at;
    while BLOCK + 2 <= s.len() - i {
        if !no_end(&s[i..i + BLOCK + 2]) {
            return i;
        }
        i += BLOCK;
    }
    i
}

// The place of the first `]]>` from at on, or the end. What stands before it may be as long as the file, so it goes by blocks first.
#[tactic(auto, using(crate::proofs::BodyLaws::cut_loop))]
pub fn section_end(s: &[u8], at: usize) -> usize
    requires { at ≤ length s.now }
    ensures { CutTo s.now at result }
{
    for i in endless_blocks(s, at)..s.len() {
        if s[i] == b']' && begins_at(s, i, b"]]>") {
            return i;
        }
    }
    s.len()
}

// Whether a section has only bytes that a value may have. It may be as long as the file, so it goes by blocks first.
pub fn all_printable(s: &[u8]) -> bool
    ensures { result ≡ all is_value_byte s.now }
{
    let e = printable_blocks(s, 0);
    is_text_of(&s[e..], s.len())
}

// The text from at on.
fn text_at(classes: &[u8], s: &[u8], at: usize) -> Result<Body, Refusal>
    requires classes { Classes classes.now }
    requires at_in_bounds { at ≤ length s.now }
    ensures { BodyRead s.now at (body_by none (drop at s.now)) result }
{
    let Some(e) = value_to(classes, s, at, b'<') else {
        return Err(Refusal::WrittenForm);
    };
    if section_end(&s[at..e], 0) < e - at {
        return Err(Refusal::WrittenForm);
    }
    Ok(Body {
        start: at,
        end: e,
        next: e + 1,
        kind: 0,
    })
}

// The CDATA section whose bytes begin at at.
fn section_at(s: &[u8], at: usize) -> Result<Body, Refusal>
    requires { at ≤ length s.now }
    ensures { BodyRead s.now at (body_by (some (drop at s.now)) (drop at s.now)) result }
{
    let e = section_end(s, at);
    if s.len() <= e {
        return Err(Refusal::WrittenForm);
    }
    if !all_printable(&s[at..e]) {
        return Err(Refusal::WrittenForm);
    }
    let Some(next) = after_byte(s, e + 3, b'<') else {
        return Err(Refusal::WrittenForm);
    };
    Ok(Body {
        start: at,
        end: e,
        next,
        kind: 1,
    })
}

// The body from at on, where an opening tag ended.
pub fn body_at(classes: &[u8], s: &[u8], at: usize) -> Result<Body, Refusal>
    requires classes { Classes classes.now }
    requires at_in_bounds { at ≤ length s.now }
    ensures { BodyRead s.now at (text_body (drop at s.now)) result }
{
    if begins_at(s, at, b"<![CDATA[") {
        return section_at(s, at + 9);
    }
    text_at(classes, s, at)
}

// Whether the same bytes stand from a up to b and from x up to y.
fn same_parts(s: &[u8], a: usize, b: usize, x: usize, y: usize) -> bool
    requires { (a ≤ b) × (b ≤ length s.now) × (x ≤ y) × (y ≤ length s.now) }
    ensures { result ≡ same (part s.now a b) (part s.now x y) }
{
    same_bytes(&s[a..b], &s[x..y])
}

// The place behind the closing tag of n, from behind its `<` on, if it is as most files write it: with nothing between the name and `>`.
fn plain_closing(s: &[u8], at: usize, n: &[u8]) -> Option<usize>
    requires { at ≤ length s.now }
    ensures { PlainlyClosed s.now at n.now result }
{
    let x = after_byte(s, at, b'/')?;
    if !begins_at(s, x, n) {
        return None;
    }
    after_byte(s, x + n.len(), b'>')
}

// The closing tag, from behind its `<` on, of the element whose name stands from a up to b. Another tag there is a child, 5, or closes what is not open, 4. It is
// read from the `<` on by the step that reads all tags: compiled, what is called from two places is a function of its own, and each tag would pay for one more.
fn closing_by_step(
    classes: &[u8],
    names: &[u8],
    s: &[u8],
    at: usize,
    a: usize,
    b: usize,
) -> Result<Cursor, Refusal>
    requires classes { Classes classes.now × Names names.now }
    requires at_in_bounds { (at ≤ length s.now) × (length s.now ≤ file_most) }
    requires a_le_b { (a ≤ b) × (b ≤ length s.now) }
    requires marked { Marked s.now at }
    ensures { ClosingRead s.now at (closed (part s.now a b) (drop at s.now)) result }
{
    let c = Cursor { at: at - 1 }.step(classes, names, s, 7);
    if c.kind == 3 {
        return Err(Refusal::WrittenForm);
    }
    if c.kind < 2 {
        return Err(Refusal::Element);
    }
    if !same_parts(s, c.name, c.name_end, a, b) {
        return Err(Refusal::WrittenForm);
    }
    Ok(c.next)
}

// The same, told by its text where it is written as in most files.
fn closing_at(
    classes: &[u8],
    names: &[u8],
    s: &[u8],
    at: usize,
    a: usize,
    b: usize,
) -> Result<Cursor, Refusal>
    requires classes { Classes classes.now × Names names.now }
    requires at_in_bounds { (at ≤ length s.now) × (length s.now ≤ file_most) }
    requires a_le_b { (a ≤ b) × (b ≤ length s.now) }
    requires b_value { is_some (element_of (part s.now a b)) ≡ true }
    requires marked { Marked s.now at }
    ensures { ClosingRead s.now at (closed (part s.now a b) (drop at s.now)) result }
{
    match plain_closing(s, at, &s[a..b]) {
        Some(next) => Ok(Cursor { at: next }),
        None => closing_by_step(classes, names, s, at, a, b),
    }
}

// Nothing between two tags.
pub fn no_content(at: usize) -> Content
    ensures { result ≡ record { start = at; end = at; next = record { at = at }; kind = 0 } }
{
    Content {
        start: at,
        end: at,
        next: Cursor { at },
        kind: 0,
    }
}

// What stands from at on up to the closing tag of the element whose name stands from a up to b.
fn content_from(
    classes: &[u8],
    names: &[u8],
    s: &[u8],
    at: usize,
    a: usize,
    b: usize,
) -> Result<Content, Refusal>
    requires classes { Classes classes.now × Names names.now }
    requires at_in_bounds { (at ≤ length s.now) × (length s.now ≤ file_most) }
    requires a_le_b { (a ≤ b) × (b ≤ length s.now) }
    requires b_value { is_some (element_of (part s.now a b)) ≡ true }
    ensures { ContentRead s.now at (content false (part s.now a b) (drop at s.now)) result }
{
    let held = body_at(classes, s, at)?;
    let next = closing_at(classes, names, s, held.next, a, b)?;
    Ok(Content {
        start: held.start,
        end: held.end,
        next,
        kind: held.kind,
    })
}

// What the element that t opened holds: nothing where t is self-closing.
pub fn content_at(classes: &[u8], names: &[u8], s: &[u8], t: TagRead) -> Result<Content, Refusal>
    requires classes { Classes classes.now × Names names.now }
    requires s_len_bound { length s.now ≤ file_most }
    requires name_bound { (t.name ≤ t.name_end) × (t.name_end ≤ t.next.at) × (t.next.at ≤ length s.now) }
    requires t_value { is_some (element_of (name_of s.now t)) ≡ true }
    ensures { ContentRead s.now t.next.at (content (eqb t.kind 1) (name_of s.now t) (drop t.next.at s.now)) result }
{
    if t.kind == 1 {
        return Ok(no_content(t.next.at));
    }
    content_from(classes, names, s, t.next.at, t.name, t.name_end)
}

// Whether a body is told to stand for its own bytes: a CDATA section, or a text without an entity. A text longer than a value is not looked at: it has one, or is
// no value.
pub fn as_written(s: &[u8], start: usize, end: usize, kind: u8) -> bool
    requires { (start ≤ end) × (end ≤ length s.now) }
    ensures { AsWritten s.now start end kind result }
{
    if kind == 1 {
        return true;
    }
    if VALUE_MOST < end - start {
        return false;
    }
    all_alone(&s[start..end])
}

// Decodes the text v to the front of out, and returns its length; None: it is longer than a value. A decoded byte is written in at most six.
pub fn decode_value(v: &[u8], out: &mut [u8]) -> Option<usize>
    requires out_len { length out.old ≡ value_most }
    requires v_value { is_some (decode v.now) ≡ true }
    ensures { ValueHeld (or_else [] (decode v.now)) out.new result }
{
    if 6 * VALUE_MOST < v.len() {
        return None;
    }
    decode(v, out).ok()
}
