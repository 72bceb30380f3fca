ghost use Rattle.std.specs.Prelude.{◌≡◌, true, ◌≤◌, ◌<◌, length, drop};
ghost use Rattle.names.specs.code.ByteClasses.{Classes};
ghost use Rattle.reader.specs.Import.{file_most};
ghost use Rattle.reader.specs.code.Places.{part, spaced};
ghost use Rattle.reader.specs.code.AttributeNumbers.{number_of};
ghost use Rattle.reader.specs.code.ElementNames.{Names};
ghost use Rattle.reader.specs.code.Expected.{Expects, Seeks};
ghost use Rattle.reader.specs.code.Found.{Free, first_of, listing_of, ListedTo, Lists, Once};
ghost use Rattle.store.specs.Answer.{refused};

use crate::duplicates::all_once;
use crate::element::{after_slot, attribute_number};
use crate::tag::{AttributePlaces, attribute_at, value_to};
use names::class::is_white;

// What one pass over a tag's attributes found: for each attribute of its element, by its number in the
// table's row, the stretch of its value (start 0: absent), and whether any other attribute stands there.
// No Option for each: eight of them are half as long again, and Found is copied with each tag.
#[derive(Clone, Copy)]
pub struct Found {
    pub starts: [usize; 8],
    pub ends: [usize; 8],
    pub unknown: bool,
}

// The pass: what it found, how many attributes it did not keep, and the place behind all.
#[derive(Clone, Copy)]
pub struct Listing {
    pub found: Found,
    pub extra: usize,
    pub end: usize,
}

fn make_listing(starts: [usize; 8], ends: [usize; 8], extra: usize, end: usize) -> Listing
    ensures { result ≡ listing_of starts ends extra end }
{
    Listing {
        found: Found {
            starts,
            ends,
            unknown: extra != 0,
        },
        extra,
        end,
    }
}

// The stretch of a value.
#[derive(Clone, Copy)]
struct Stretch {
    start: usize,
    end: usize,
}

// An attribute that was looked for at a place: the stretch of its value (start 0: it is not told to stand there), the place behind it, and one at which the same stands
// as there.
// The start is no Option: the arrays of Found have 0 for what is absent, and each would be turned back into it.
#[derive(Clone, Copy)]
struct Sought {
    start: usize,
    end: usize,
    next: usize,
    same: usize,
}

// Whether no attribute stands at at, since no white space does.
fn none_at(classes: &[u8], s: &[u8], at: usize) -> bool
    requires { Classes classes.now }
    ensures { result ≡ true → spaced (drop at s.now) ≡ refused 4 }
{
    s.len() <= at || !is_white(classes, s[at])
}

// A text whose attributes are looked up in the row of an element.
#[derive(Clone, Copy)]
struct Row<'a> {
    classes: &'a [u8],
    names: &'a [u8],
    s: &'a [u8],
    element: usize,
    ghost tables: { Classes classes.now × Names names.now },
    ghost in_table: { element < 12 },
}

impl Row<'_> {
    // Looks at at for the attribute of number j in the element's row, written as most are: the stretch of its value; or it is not told, and the same stands at the place
    // that is answered. Behind the last number there is none to look for. Where the value is not closed, no attribute stands there, as at the file's end. It is written
    // out where it is called, as `seek` is: otherwise an ordinary file takes a fortieth more.
    #[inline(always)]
    fn expected_at(&self, at: usize, j: usize) -> Result<Stretch, usize>
        requires at_in_bounds { at ≤ length self.now.s.now }
        ensures { Expects self.now.s.now at self.now.element j result }
    {
        if 8 <= j {
            return Err(at);
        }
        let Some(start) = after_slot(self.names, self.s, at, self.element, j + 1) else {
            return Err(at);
        };
        match value_to(self.classes, self.s, start, b'"') {
            Some(end) => Ok(Stretch { start, end }),
            None => Err(self.s.len()),
        }
    }

    // The number of an attribute in the row of an element where none of that number was found yet.
    fn free_number(&self, a: AttributePlaces, starts: [usize; 8]) -> Option<usize>
        requires name_bound { (a.name ≤ a.name_end) × (a.name_end ≤ length self.now.s.now) }
        ensures { Free (number_of self.now.element (part self.now.s.now a.name a.name_end)) starts result }
    {
        let j = attribute_number(self.names, self.element, &self.s[a.name..a.name_end])?;
        if starts[j] != 0 {
            return None;
        }
        Some(j)
    }

    // The pass from i on, where the attributes before i were found. The one of number n is looked for first, and those behind it as long as each stands there; from n
    // on none was found yet. Not kept are those that are not the element's own, and those that stand twice.
    fn list_on(
        &self,
        at: usize,
        mut starts: [usize; 8],
        mut ends: [usize; 8],
        mut i: usize,
        mut n: usize,
    ) -> Listing
        requires listed_to { ListedTo self.now.s.now at self.now.element i n starts ends 0 }
        ensures { Lists self.now.s.now at self.now.element result }
    {
        let mut extra: usize = 0;
        // By loop: where an attribute ends, the next one is looked for, and what stands there decides how.
        loop {
            match self.expected_at(i, n) {
                Ok(v) => {
                    starts[n] = v.start;
                    ends[n] = v.end;
                    i = v.end + 1;
                    n += 1;
                }
                Err(f) => {
                    let Some(a) = attribute_at(self.classes, self.s, f) else {
                        return make_listing(starts, ends, extra, i);
                    };
                    i = a.next;
                    n = 8;
                    match self.free_number(a, starts) {
                        Some(j) => {
                            starts[j] = a.value;
                            ends[j] = a.value_end;
                        }
                        None => extra += 1,
                    }
                }
            }
        }
    }

    // Looks for the attribute of number j in the element's row, if it is wanted.
    #[inline(always)]
    fn seek(&self, wanted: bool, at: usize, j: usize) -> Sought
        requires at_in_bounds { at ≤ length self.now.s.now }
        ensures { Seeks self.now.s.now at self.now.element j result }
    {
        if !wanted {
            return Sought {
                start: 0,
                end: 0,
                next: at,
                same: at,
            };
        }
        match self.expected_at(at, j) {
            Ok(v) => Sought {
                start: v.start,
                end: v.end,
                next: v.end + 1,
                same: v.end + 1,
            },
            Err(same) => Sought {
                start: 0,
                end: 0,
                next: at,
                same,
            },
        }
    }

    // The pass behind the first two attributes of the element's row, which were looked for.
    fn list_more(&self, at: usize, a: Sought, b: Sought) -> Listing
        requires listed_to { ListedTo self.now.s.now at self.now.element b.next 2 (first_of a.start b.start 0 0) (first_of a.end b.end 0 0) 0 }
        ensures { Lists self.now.s.now at self.now.element result }
    {
        let usual = a.start != 0;
        let c = self.seek(usual, b.next, 2);
        let d = self.seek(usual, c.next, 3);
        let starts = [a.start, b.start, c.start, d.start, 0, 0, 0, 0];
        let ends = [a.end, b.end, c.end, d.end, 0, 0, 0, 0];
        if none_at(self.classes, self.s, d.same) {
            return make_listing(starts, ends, 0, d.next);
        }
        self.list_on(at, starts, ends, d.next, 4)
    }

    // One pass over the attributes from at on. Mostly they are some of the first in the element's row, in its order: then no array is written place by place, which would
    // have to be waited for when it is handed on. All others, and tags that do not begin with the first of the row, go the general way.
    fn list_attributes(&self, at: usize) -> Listing
        requires at_in_bounds { at ≤ length self.now.s.now }
        ensures { Lists self.now.s.now at self.now.element result }
    {
        let a = self.seek(true, at, 0);
        if none_at(self.classes, self.s, a.same) {
            return make_listing(
                [a.start, 0, 0, 0, 0, 0, 0, 0],
                [a.end, 0, 0, 0, 0, 0, 0, 0],
                0,
                a.next,
            );
        }
        let b = self.seek(a.start != 0, a.next, 1);
        if none_at(self.classes, self.s, b.same) {
            return make_listing(
                [a.start, b.start, 0, 0, 0, 0, 0, 0],
                [a.end, b.end, 0, 0, 0, 0, 0, 0],
                0,
                b.next,
            );
        }
        self.list_more(at, a, b)
    }
}

// The attributes from at on; None: one of them stands twice. Only where the pass did not keep all of them is there more to compare than it did.
pub fn attributes_once(
    classes: &[u8],
    names: &[u8],
    s: &[u8],
    at: usize,
    element: usize,
) -> Option<Listing>
    requires classes { Classes classes.now × Names names.now }
    requires at_in_bounds { at ≤ length s.now }
    requires element_bound { element < 12 }
    requires s_len_bound { length s.now ≤ file_most }
    ensures { Once s.now at element result }
{
    let row = Row {
        classes,
        names,
        s,
        element,
    };
    let l = row.list_attributes(at);
    if l.extra != 0 && !all_once(classes, s, at, l.extra) {
        return None;
    }
    Some(l)
}
