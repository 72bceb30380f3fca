ghost use Rattle.std.specs.Prelude.{◌≡◌, ◌+◌, ◌≤◌, ◌<◌, length, drop};
ghost use Rattle.names.specs.code.ByteClasses.{Classes};
ghost use Rattle.reader.specs.Tag.{tag_name, opening_tag, closing_tag, tag_behind, next_tag};
ghost use Rattle.reader.specs.Import.{file_most};
ghost use Rattle.reader.specs.code.Places.{NameEnd};
ghost use Rattle.reader.specs.code.ElementNames.{Names};
ghost use Rattle.reader.specs.code.Found.{Tagged, plain_tag};

use crate::attributes::{Found, attributes_once};
use crate::element::{after_slot, row_here};
use crate::scan::{after_byte, is_tag_byte, skip_white};
use crate::tag::{name_end, tag_end};

// A reading place in a file.
#[derive(Clone, Copy)]
pub struct Cursor {
    pub at: usize,
}

// A tag and the place behind it; of an opening one, the number of the element in whose row its attributes were looked up. Kind: 0 opens, 1 opens and
// closes, 2 closes, 3 broken. It is a number, since functions of other rooms take tags as callers make them, whatever their kind.
#[derive(Clone, Copy)]
pub struct TagRead {
    pub name: usize,
    pub name_end: usize,
    pub next: Cursor,
    pub element: usize,
    pub found: Found,
    pub kind: u8,
}

fn plain_tag(kind: u8, name: usize, name_end: usize, next: usize) -> TagRead
    ensures { result ≡ plain_tag kind name name_end next }
{
    TagRead {
        name,
        name_end,
        next: Cursor { at: next },
        element: 0,
        found: Found {
            starts: [0; 8],
            ends: [0; 8],
            unknown: false,
        },
        kind,
    }
}

fn broken_tag(at: usize) -> TagRead
    ensures { result ≡ plain_tag 3 at at at }
{
    plain_tag(3, at, at, at)
}

// The place behind the name at at. Mostly it is the name of a level's element; what the level is does not matter to the answer.
fn element_end(classes: &[u8], names: &[u8], s: &[u8], at: usize, level: usize) -> Option<usize>
    requires classes { Classes classes.now × Names names.now }
    requires at_in_bounds { (at ≤ length s.now) × (level < 7) }
    ensures { NameEnd s.now at result (tag_name (drop at s.now)) }
{
    match after_slot(names, s, at, level, 0) {
        Some(n) if n < s.len() && !is_tag_byte(classes, s[n]) => Some(n),
        _ => name_end(classes, s, at),
    }
}

// The opening tag whose name begins at at and ends at n.
fn open_tag(classes: &[u8], names: &[u8], s: &[u8], at: usize, n: usize, level: usize) -> TagRead
    requires classes { Classes classes.now × Names names.now }
    requires name_end { NameEnd s.now at (Some n) (tag_name (drop at s.now)) }
    requires level_bound { level < 8 }
    requires s_len_bound { length s.now ≤ file_most }
    ensures { Tagged s.now level at (opening_tag (drop at s.now)) result }
{
    let element = row_here(names, level, s, at, n);
    let Some(l) = attributes_once(classes, names, s, n, element) else {
        return broken_tag(at);
    };
    let Some(end) = tag_end(classes, s, l.end) else {
        return broken_tag(at);
    };
    TagRead {
        name: at,
        name_end: n,
        next: Cursor { at: end.next },
        element,
        found: l.found,
        kind: u8::from(end.whole),
    }
}

// The closing tag whose name begins at at and ends at n.
fn close_tag(classes: &[u8], s: &[u8], at: usize, n: usize, level: usize) -> TagRead
    requires classes { Classes classes.now }
    requires name_end { NameEnd s.now at (Some n) (tag_name (drop at s.now)) }
    ensures { Tagged s.now level at (closing_tag (drop at s.now)) result }
{
    let a = skip_white(classes, s, n);
    match after_byte(s, a, b'>') {
        Some(z) => plain_tag(2, at, n, z),
        None => broken_tag(at),
    }
}

// The level whose element a tag mostly names, where so many elements are open.
fn named_level(level: usize, closing: bool) -> usize
    requires { level < 8 }
    ensures { result < 7 }
{
    if closing {
        level.saturating_sub(1)
    } else {
        level.min(6)
    }
}

impl Cursor {
    // The tag from behind its `<` on, where so many elements are open.
    pub fn read_tag(self, classes: &[u8], names: &[u8], s: &[u8], level: usize) -> TagRead
        requires classes { Classes classes.now × Names names.now }
        requires at_in_bounds { self.at ≤ length s.now }
        requires level_bound { level < 8 }
        requires s_len_bound { length s.now ≤ file_most }
        ensures { Tagged s.now level self.at (tag_behind (drop self.at s.now)) result }
    {
        let slash = after_byte(s, self.at, b'/');
        let closing = slash.is_some();
        let e = slash.unwrap_or(self.at);
        let Some(n) = element_end(classes, names, s, e, named_level(level, closing)) else {
            return broken_tag(e);
        };
        if closing {
            close_tag(classes, s, e, n, level)
        } else {
            open_tag(classes, names, s, e, n, level)
        }
    }

    // The next tag with the white space before it, where so many elements are open.
    pub fn step(self, classes: &[u8], names: &[u8], s: &[u8], level: usize) -> TagRead
        requires classes { Classes classes.now × Names names.now }
        requires at_in_bounds { self.at ≤ length s.now }
        requires level_bound { level < 8 }
        requires s_len_bound { length s.now ≤ file_most }
        ensures { Tagged s.now level (self.at + 1) (next_tag (drop self.at s.now)) result }
    {
        let a = skip_white(classes, s, self.at);
        match after_byte(s, a, b'<') {
            Some(at) => Cursor { at }.read_tag(classes, names, s, level),
            None => broken_tag(self.at),
        }
    }
}
