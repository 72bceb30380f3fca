ghost use Rattle.std.specs.Prelude.{◌≡◌, true, ◌≤◌, length, drop};
ghost use Rattle.names.specs.Class.{is_markup};
ghost use Rattle.names.specs.code.ByteClasses.{Classes};
ghost use Rattle.reader.specs.Tag.{skip, tag_name, quoted, tag_end};
ghost use Rattle.reader.specs.code.ByteRun.{is_bare, Runs};
ghost use Rattle.reader.specs.code.Places.{Behind, NameEnd, equals, ValueTo, ValueEnd, spaced, one_means, OneWithin, end_means, EndWithin};

use crate::scan::{
    after_byte, bare_run, escapes_fine, is_letter, is_quote, name_run, skip_white, value_run,
};
use names::class::is_white;

// An attribute's places: its name, its value between the quotes, and what follows.
#[derive(Clone, Copy)]
pub struct AttributePlaces {
    pub name: usize,
    pub name_end: usize,
    pub value: usize,
    pub value_end: usize,
    pub next: usize,
}

// The end of an opening tag: the place behind it, and whether the tag closes its element too.
#[derive(Clone, Copy)]
pub struct TagEnd {
    pub next: usize,
    pub whole: bool,
}

// The place behind the name at at.
pub fn name_end(classes: &[u8], s: &[u8], at: usize) -> Option<usize>
    requires classes { Classes classes.now }
    requires at_in_bounds { at ≤ length s.now }
    ensures { NameEnd s.now at result (tag_name (drop at s.now)) }
{
    if s.len() <= at || !is_letter(classes, s[at]) {
        return None;
    }
    Some(name_run(classes, s, at + 1))
}

// The place behind = and the white space around it.
fn spaced_equals(classes: &[u8], s: &[u8], at: usize) -> Option<usize>
    requires classes { Classes classes.now }
    requires at_in_bounds { at ≤ length s.now }
    ensures { Behind s.now at result (equals (drop at s.now)) }
{
    let a = skip_white(classes, s, at);
    let b = after_byte(s, a, b'=')?;
    Some(skip_white(classes, s, b))
}

// The same. Mostly there is no white space.
fn equals_end(classes: &[u8], s: &[u8], at: usize) -> Option<usize>
    requires classes { Classes classes.now }
    requires at_in_bounds { at ≤ length s.now }
    ensures { Behind s.now at result (equals (drop at s.now)) }
{
    if s.len() - at < 2 || s[at] != b'=' || is_white(classes, s[at + 1]) {
        return spaced_equals(classes, s, at);
    }
    Some(at + 1)
}

// The place of the byte q, a quote or another mark, that ends the text from at on; the bytes up to p are bare.
#[inline(never)]
fn written_to(s: &[u8], at: usize, p: usize, q: u8) -> Option<usize>
    requires q_value { is_markup q ≡ true }
    requires runs { Runs is_bare s.now at p }
    ensures { ValueTo q s.now at result }
{
    let e = value_run(s, p, q);
    after_byte(s, e, q)?;
    if !escapes_fine(&s[at..e]) {
        return None;
    }
    Some(e)
}

// The same. Most texts are bare and short: they are passed once, where it is called.
// `written_to` stays a function of its own: otherwise entities take 1.4 times as long.
#[inline(always)]
pub fn value_to(classes: &[u8], s: &[u8], at: usize, q: u8) -> Option<usize>
    requires classes { Classes classes.now }
    requires q_value { is_markup q ≡ true }
    requires at_in_bounds { at ≤ length s.now }
    ensures { ValueTo q s.now at result }
{
    let p = bare_run(classes, s, at);
    if p < s.len() && s[p] == q {
        return Some(p);
    }
    written_to(s, at, p, q)
}

// The place behind the value whose opening quote stands at at.
fn value_end(classes: &[u8], s: &[u8], at: usize) -> Option<usize>
    requires classes { Classes classes.now }
    requires at_in_bounds { at ≤ length s.now }
    ensures { ValueEnd s.now at result (quoted (drop at s.now)) }
{
    if s.len() <= at || !is_quote(s[at]) {
        return None;
    }
    let e = value_to(classes, s, at + 1, s[at])?;
    Some(e + 1)
}

// The attribute at at with the white space before it.
pub fn attribute_at(classes: &[u8], s: &[u8], at: usize) -> Option<AttributePlaces>
    requires classes { Classes classes.now }
    requires at_in_bounds { at ≤ length s.now }
    ensures result_value { one_means s.now result ≡ spaced (drop at s.now) }
    ensures one_within { OneWithin s.now at result }
{
    let name = skip_white(classes, s, at);
    if name <= at {
        return None;
    }
    let end = name_end(classes, s, name)?;
    let quote = equals_end(classes, s, end)?;
    let next = value_end(classes, s, quote)?;
    Some(AttributePlaces {
        name,
        name_end: end,
        value: quote + 1,
        value_end: next - 1,
        next,
    })
}

// The end of an opening tag, with the white space before it.
pub fn tag_end(classes: &[u8], s: &[u8], at: usize) -> Option<TagEnd>
    requires classes { Classes classes.now }
    requires at_in_bounds { at ≤ length s.now }
    ensures result_value { end_means s.now result ≡ tag_end (skip (drop at s.now)) }
    ensures end_within { EndWithin at (length s.now) result }
{
    let a = skip_white(classes, s, at);
    if let Some(next) = after_byte(s, a, b'>') {
        return Some(TagEnd { next, whole: false });
    }
    let d = after_byte(s, a, b'/')?;
    let next = after_byte(s, d, b'>')?;
    Some(TagEnd { next, whole: true })
}
