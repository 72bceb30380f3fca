ghost use Rattle.std.specs.Prelude.{◌≡◌, true, ◌+◌, ◌≤◌, ◌<◌, length, drop};
ghost use Rattle.names.specs.Bytes.{all};
ghost use Rattle.names.specs.Class.{is_value_byte};
ghost use Rattle.names.specs.code.ByteClasses.{Classes};
ghost use Rattle.store.specs.Answer.{unless};
ghost use Rattle.store.specs.code.Refusals.{said};
ghost use Rattle.reader.specs.Tag.{skip};
ghost use Rattle.reader.specs.Tell.{tell_closing, tell};
ghost use Rattle.reader.specs.Element.{body_fits};
ghost use Rattle.reader.specs.Import.{file_most, is_nil};
ghost use Rattle.reader.specs.code.Bodies.{BodyStretch};
ghost use Rattle.reader.specs.code.ElementNames.{form_numbered, row_here, Names};
ghost use Rattle.reader.specs.code.Answered.{name_of, Attributed, tag_of, Readable};
ghost use Rattle.reader.specs.code.Telling.{place_in, PlacedBy, content_text, no_content, telling, Passing, going_on, Typed, tell_content, ToldBy};

use crate::body::{Content, as_written, content_at, decode_value, no_content};
use crate::cursor::TagRead;
use crate::element::{body_form, element_name_is};
use crate::entity::{Own, own_names};
use crate::open_elements::{OpenElements, own_word, word_by};
use crate::scan::skip_white;
use crate::values::{has_form, opening_fault};
use names::name::VALUE_MOST;
use store::answer::Refusal;

// What an accepted tag says without the store, where more of the file follows: whether it opens an element (kind 0), opens and closes it (1) or closes it (2),
// that element's word (0: none), the names that it gives, what a typed item holds and where the file goes on, and what is open there. A typed item's body and
// closing tag are read with its opening tag, which so opens and closes.
// Word and kind stay numbers: both are what `OpenElements::moved`, which is pub, takes, any byte, and a word's number is document 01's form.
#[derive(Clone, Copy)]
pub struct Told {
    pub content: Content,
    pub elements: OpenElements,
    pub own: Own,
    pub word: u8,
    pub kind: u8,
}

// The tag is accepted, and more of the file follows.
fn go_on(word: u8, kind: u8, t: TagRead, c: Content, elements: OpenElements) -> Told
    requires { Passing kind t elements }
    ensures { result ≡ going_on word kind t c elements }
{
    Told {
        content: c,
        elements: elements.moved(t.element, kind, word),
        own: own_names(t, elements.level),
        word,
        kind,
    }
}

// The same of a tag to which nothing but itself belongs.
fn pass(word: u8, t: TagRead, elements: OpenElements) -> Told
    requires { Passing t.kind t elements }
    ensures { result ≡ going_on word t.kind t (no_content t.next.at) elements }
{
    go_on(word, t.kind, t, no_content(t.next.at), elements)
}

// What stands behind ODM's close is refused, where it is not only white space.
pub fn white_to_end(classes: &[u8], s: &[u8], at: usize) -> Result<(), Refusal>
    requires classes { Classes classes.now }
    requires at_in_bounds { at ≤ length s.now }
    ensures { said result ≡ unless (is_nil (skip (drop at s.now))) 4 }
{
    if skip_white(classes, s, at) < s.len() {
        Err(Refusal::WrittenForm)
    } else {
        Ok(())
    }
}

// Whether the text of a body is null or has the form of a number: "A body off its pattern or over 40 bytes is 7."
fn null_or_formed(classes: &[u8], form: u8, v: &[u8]) -> bool
    requires classes { Classes classes.now }
    requires v_value { all is_value_byte v.now ≡ true }
    ensures { result ≡ body_fits (form_numbered form) v.now }
{
    v.len() == 0 || (v.len() <= VALUE_MOST && has_form(classes, form, v))
}

// Whether that of a body in the file is. Most bodies stand for their own bytes: they are judged where they stand.
fn body_fits(classes: &[u8], form: u8, s: &[u8], c: Content) -> bool
    requires classes { Classes classes.now }
    requires body_stretch { BodyStretch s.now c.start c.end c.kind }
    requires c_value { all is_value_byte (content_text s.now c) ≡ true }
    ensures { result ≡ body_fits (form_numbered form) (content_text s.now c) }
{
    let a = c.start;
    let e = c.end;
    if as_written(s, a, e, c.kind) {
        return null_or_formed(classes, form, &s[a..e]);
    }
    let mut value = [0; VALUE_MOST];
    match decode_value(&s[a..e], &mut value) {
        Some(n) => null_or_formed(classes, form, &value[0..n]),
        None => false,
    }
}

// What a typed item's tag says behind its word: its body and its closing tag are judged with it, 4 or 5, then 7.
fn tell_typed(
    classes: &[u8],
    names: &[u8],
    s: &[u8],
    t: TagRead,
    form: u8,
    word: u8,
    elements: OpenElements,
) -> Result<Option<Told>, Refusal>
    requires classes { Classes classes.now × Names names.now }
    requires s_len_bound { length s.now ≤ file_most }
    requires typed { Typed s.now t elements word form }
    ensures { ToldBy (tell_content s.now t elements word form) s.now t elements result }
{
    let c = content_at(classes, names, s, t)?;
    if body_fits(classes, form, s, c) {
        Ok(Some(go_on(word, 1, t, c, elements)))
    } else {
        Err(Refusal::Value)
    }
}

// Judges a tag, if it is an opening one, by its element, its attributes and their values. It is asked for before the tag is handed on: compiled, what is handed on is
// copied, and this test would wait for the copy.
pub fn tag_fault(
    classes: &[u8],
    names: &[u8],
    s: &[u8],
    t: TagRead,
    elements: OpenElements,
) -> Result<(), Refusal>
    requires classes { Classes classes.now × Names names.now }
    requires level_bound { elements.level ≤ 6 }
    requires readable { (t.kind ≡ 3 → ⊥) → Readable s.now (elements.level + 1) t }
    ensures judged { t.kind < 2 → PlacedBy s.now t elements result }
    ensures passed { 2 ≤ t.kind → result ≡ Ok tt }
{
    if 2 <= t.kind {
        return Ok(());
    }
    opening_fault(classes, names, s, elements.level + 1, elements.items, t)
}

// What a well placed opening tag says: an entity's word is asked for, 10.
fn tell_opening(
    classes: &[u8],
    names: &[u8],
    s: &[u8],
    t: TagRead,
    snapshot: bool,
    elements: OpenElements,
) -> Result<Option<Told>, Refusal>
    requires classes { Classes classes.now × Names names.now }
    requires s_len_bound { length s.now ≤ file_most }
    requires level_bound { (elements.level ≤ 6) × (t.kind < 2) × (t.element ≡ row_here (elements.level + 1) (name_of s.now t)) }
    requires attributed { Attributed s.now t × PlacedBy s.now t elements (Ok tt) }
    ensures { ToldBy (tell snapshot (place_in elements) (tag_of s.now t) (drop t.next.at s.now)) s.now t elements result }
{
    if elements.level == 0 {
        return Ok(Some(pass(0, t, elements)));
    }
    let word = word_by(snapshot, elements.word(), own_word(s, t))?;
    match body_form(names, t.element) {
        Some(form) => tell_typed(classes, names, s, t, form, word, elements),
        None => Ok(Some(pass(word, t, elements))),
    }
}

// What a closing tag says: "wrong .. closing tag" is 4. ODM's says nothing more: the file ends.
fn tell_closing(
    classes: &[u8],
    names: &[u8],
    s: &[u8],
    t: TagRead,
    elements: OpenElements,
) -> Result<Option<Told>, Refusal>
    requires classes { Classes classes.now × Names names.now }
    requires level_bound { (elements.level ≤ 6) × (t.kind ≡ 2) }
    requires name_bound { (t.name ≤ t.name_end) × (t.name_end ≤ length s.now) × (t.next.at ≤ length s.now) }
    ensures { ToldBy (tell_closing (place_in elements) (place_in elements).words (name_of s.now t) (drop t.next.at s.now)) s.now t elements result }
{
    let a = t.name;
    let b = t.name_end;
    let level = elements.level;
    if !element_name_is(names, level, &s[a..b]) {
        return Err(Refusal::WrittenForm);
    }
    if level == 0 {
        white_to_end(classes, s, t.next.at)?;
        return Ok(None);
    }
    Ok(Some(pass(elements.word().unwrap_or(0), t, elements)))
}

// What a tag below ODM says that is well placed, if it is an opening one.
fn tell_placed(
    classes: &[u8],
    names: &[u8],
    s: &[u8],
    t: TagRead,
    snapshot: bool,
    elements: OpenElements,
) -> Result<Option<Told>, Refusal>
    requires classes { Classes classes.now × Names names.now }
    requires level_bound { (elements.level ≤ 6) × (length s.now ≤ file_most) }
    requires readable { (t.kind ≡ 3 → ⊥) → Readable s.now (elements.level + 1) t }
    requires placed_by { t.kind < 2 → PlacedBy s.now t elements (Ok tt) }
    ensures { ToldBy (telling snapshot (place_in elements) s.now t) s.now t elements result }
{
    if t.kind == 3 {
        return Err(Refusal::WrittenForm);
    }
    if t.kind == 2 {
        return tell_closing(classes, names, s, t, elements);
    }
    tell_opening(classes, names, s, t, snapshot, elements)
}

// What a tag below ODM says: 5, 6, 16 or 7 of an opening one that is not well placed. None: it closes ODM, and the file ends.
pub fn tell_tag(
    classes: &[u8],
    names: &[u8],
    s: &[u8],
    t: TagRead,
    snapshot: bool,
    elements: OpenElements,
) -> Result<Option<Told>, Refusal>
    requires classes { Classes classes.now × Names names.now }
    requires level_bound { (elements.level ≤ 6) × (length s.now ≤ file_most) }
    requires readable { (t.kind ≡ 3 → ⊥) → Readable s.now (elements.level + 1) t }
    ensures { ToldBy (telling snapshot (place_in elements) s.now t) s.now t elements result }
{
    tag_fault(classes, names, s, t, elements)?;
    tell_placed(classes, names, s, t, snapshot, elements)
}
