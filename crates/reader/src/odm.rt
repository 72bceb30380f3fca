ghost use Rattle.std.specs.Prelude.{[], ◌≡◌, ◌<◌, get_or};
ghost use Rattle.names.specs.Bytes.{bytes as text_of};
ghost use Rattle.names.specs.code.ByteClasses.{Classes};
ghost use Rattle.names.specs.Date.{not_later};
ghost use Rattle.store.specs.Machine.{last_filed};
ghost use Rattle.store.specs.code.Withdrawal.{Valid};
ghost use Rattle.reader.specs.Element.{get, or_else};
ghost use Rattle.reader.specs.code.Found.{attrs_of};
ghost use Rattle.reader.specs.Judge.{header_of, follows, in_series};
ghost use Rattle.reader.specs.code.Answered.{Attributed};
ghost use Rattle.reader.specs.code.ElementNames.{Names};
ghost use Rattle.reader.specs.code.OdmTag.{Heads, HeadOf, OdmRead, date_number};
ghost use Rattle.store.specs.code.Pending.{machine_of};

use crate::cursor::TagRead;
use crate::values::opening_fault;
use names::bytes::same_bytes;
use names::date::not_later;
use store::answer::Refusal;
use store::sizes::FILES_MOST;
use store::standing::{file_count, is_last_oid, is_standing, not_before_last};

// What the ODM tag says: the stretches of its FileOID and of the date to keep, and whether the file is a Snapshot.
#[derive(Clone, Copy)]
pub struct HeaderPlaces {
    pub oid: usize,
    pub oid_end: usize,
    pub date: usize,
    pub date_end: usize,
    pub snapshot: bool,
}

// The stretch of the attribute of number j.
fn start_at(t: TagRead, j: usize) -> usize
    requires { j < 8 }
    ensures { result ≡ get_or t.found.starts j 0 }
{
    let starts = t.found.starts;
    starts[j]
}

fn end_at(t: TagRead, j: usize) -> usize
    requires { j < 8 }
    ensures { result ≡ get_or t.found.ends j 0 }
{
    let ends = t.found.ends;
    ends[j]
}

// The number of the attribute whose date is kept: "An absent AsOfDateTime is the CreationDateTime; the store keeps it."
fn date_number(t: TagRead) -> usize
    ensures value { result ≡ date_number t }
    ensures upper_bound { result < 8 }
{
    if start_at(t, 6) == 0 { 3 } else { 6 }
}

// The header of a well placed tag.
fn head_of(s: &[u8], t: TagRead) -> HeaderPlaces
    requires { OdmRead s.now t }
    ensures { HeadOf s.now t result }
{
    let a = start_at(t, 1);
    let e = end_at(t, 1);
    let j = date_number(t);
    HeaderPlaces {
        oid: start_at(t, 2),
        oid_end: end_at(t, 2),
        date: start_at(t, j),
        date_end: end_at(t, j),
        snapshot: same_bytes(b"Snapshot", &s[a..e]),
    }
}

// "AsOfDateTime is not after CreationDateTime".
fn not_after_creation(s: &[u8], t: TagRead, h: HeaderPlaces) -> bool
    requires odm_read { OdmRead s.now t }
    requires head_of { HeadOf s.now t h }
    ensures { let as' = attrs_of s.now t in result ≡ not_later (header_of as').date (or_else [] (get (text_of "CreationDateTime") as')) }
{
    let created = start_at(t, 3);
    let created_end = end_at(t, 3);
    not_later(&s[h.date..h.date_end], &s[created..created_end])
}

// "PriorFileOID is absent if F is 0, else the last standing FileOID"; a file that follows another is no Snapshot, nor is its date before the last kept one.
fn follows_last(numbers: &[u32], bytes: &[u8], s: &[u8], t: TagRead, h: HeaderPlaces) -> bool
    requires valid { Valid numbers.now bytes.now }
    requires odm_read { OdmRead s.now t }
    requires head_of { HeadOf s.now t h }
    ensures { let as' = attrs_of s.now t in result ≡ follows (last_filed (machine_of numbers.now bytes.now).files) (get (text_of "PriorFileOID") as') (header_of as') }
{
    let prior = start_at(t, 5);
    if prior == 0 {
        return file_count(numbers, bytes) == 0;
    }
    let prior_end = end_at(t, 5);
    is_last_oid(numbers, bytes, &s[prior..prior_end])
        && not_before_last(numbers, bytes, &s[h.date..h.date_end])
        && !h.snapshot
}

// Whether the file goes on the series of the standing files.
fn in_series(numbers: &[u32], bytes: &[u8], s: &[u8], t: TagRead, h: HeaderPlaces) -> bool
    requires valid { Valid numbers.now bytes.now }
    requires odm_read { OdmRead s.now t }
    requires head_of { HeadOf s.now t h }
    ensures { result ≡ in_series (machine_of numbers.now bytes.now).files (attrs_of s.now t) }
{
    !is_standing(numbers, bytes, &s[h.oid..h.oid_end])
        && follows_last(numbers, bytes, s, t, h)
        && not_after_creation(s, t, h)
}

// Judges a well placed ODM tag: "9 series broken", then "files at the ODM tag".
fn judge_series(
    numbers: &[u32],
    bytes: &[u8],
    s: &[u8],
    t: TagRead,
) -> Result<HeaderPlaces, Refusal>
    requires valid { Valid numbers.now bytes.now }
    requires odm_read { OdmRead s.now t }
    ensures { Heads numbers.now bytes.now s.now t result }
{
    let h = head_of(s, t);
    if !in_series(numbers, bytes, s, t, h) {
        return Err(Refusal::Series);
    }
    if FILES_MOST <= file_count(numbers, bytes) {
        return Err(Refusal::Limit);
    }
    Ok(h)
}

// Judges the ODM tag.
pub fn open_odm(
    classes: &[u8],
    names: &[u8],
    numbers: &[u32],
    bytes: &[u8],
    s: &[u8],
    t: TagRead,
) -> Result<HeaderPlaces, Refusal>
    requires classes { Classes classes.now × Names names.now }
    requires valid { Valid numbers.now bytes.now }
    requires attributed { Attributed s.now t × (t.element ≡ 0) }
    ensures { Heads numbers.now bytes.now s.now t result }
{
    opening_fault(classes, names, s, 0, 0, t)?;
    judge_series(numbers, bytes, s, t)
}
