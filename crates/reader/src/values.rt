ghost use Rattle.std.specs.Prelude.{◌≡◌, true, ◌≤◌, ◌<◌, length};
ghost use Rattle.names.specs.Bytes.{all};
ghost use Rattle.names.specs.code.ByteClasses.{Classes};
ghost use Rattle.names.specs.Text.{decode};
ghost use Rattle.reader.specs.Element.{has_form, formed_by, one_sort, well_placed};
ghost use Rattle.reader.specs.code.ElementNames.{form_numbered, Names, row_here};
ghost use Rattle.reader.specs.code.Places.{is_some};
ghost use Rattle.reader.specs.code.Found.{attrs_of};
ghost use Rattle.reader.specs.code.Answered.{said_as, name_of, Attributed};
ghost use Rattle.reader.specs.code.Values.{literal_of, value_in, ValueStretch, Stretches, text_fits, stands_alone, forms_of, formed_from, required_there, beside_null, named_here, sort_at};

use crate::attributes::Found;
use crate::cursor::TagRead;
use crate::element::{element_name_is, form_at};
use crate::open_elements::word_number;
use names::bytes::same_bytes;
use names::class::is_value_byte;
use names::date::{is_date, is_day_text};
use names::name::{is_long_name, is_name_by, is_text_of, is_value};
use names::number::is_number;
use names::text::decode;
use store::answer::Refusal;

// Whether v is a text that a form of this number allows.
#[tactic(auto, using(crate::proofs::FormLaws::literals))]
fn is_literal(form: u8, v: &[u8]) -> bool
    ensures { result ≡ literal_of form v.now }
{
    match form {
        1 => same_bytes(b"http://www.cdisc.org/ns/odm/v1.3", v),
        2 => same_bytes(b"Snapshot", v) || same_bytes(b"Transactional", v),
        5 => same_bytes(b"1.3.2", v),
        _ => same_bytes(b"Yes", v),
    }
}

// Whether v, decoded, is a text that has room there. A decoded byte is written in at most six.
fn text_fits(v: &[u8], room: &mut [u8]) -> bool
    requires { length room.old ≤ 64 }
    ensures { result ≡ text_fits (length room.old) (decode v.now) }
{
    let most = room.len();
    if 6 * most < v.len() {
        return false;
    }
    match decode(v, room) {
        Ok(n) => is_text_of(&room[0..n], most),
        Err(_) => false,
    }
}

// The two forms that are told by the decoded bytes. A value is handed over as it is written.
fn description_fits(v: &[u8]) -> bool
    ensures { result ≡ text_fits 64 (decode v.now) }
{
    let mut room = [0u8; 64];
    text_fits(v, &mut room)
}

// Whether b is a byte of a text, and written as it is.
fn stands_alone(b: u8) -> bool
    ensures { result ≡ stands_alone b }
{
    b != b'&' && is_value_byte(b)
}

// Whether every byte of v is such a one: v then stands for itself.
pub fn all_alone(v: &[u8]) -> bool
    ensures { result ≡ all stands_alone v.now }
{
    v.iter().all(|b| stands_alone(*b))
}

// Most values have no entity: they need no room to be decoded into.
fn value_fits(v: &[u8]) -> bool
    ensures { result ≡ text_fits 40 (decode v.now) }
{
    if v.len() <= 40 && all_alone(v) {
        return true;
    }
    let mut room = [0u8; 40];
    text_fits(v, &mut room)
}

// Whether v has the form that a number stands for. Values of attributes and bodies are told by this one test. Forms stay numbers: the element table has them
// in its bytes, and this function, which is pub, takes any.
pub fn has_form(classes: &[u8], form: u8, v: &[u8]) -> bool
    requires { Classes classes.now }
    ensures { result ≡ has_form (form_numbered form) v.now }
{
    match form {
        3 => is_long_name(v),
        4 => is_date(v),
        6 => is_text_of(v, 64),
        7 => is_name_by(classes, v),
        8 => word_number(v).is_some(),
        9 => is_value(v),
        11 => is_number(v, false),
        12 => is_number(v, true),
        13 => is_day_text(v),
        _ => is_literal(form, v),
    }
}

// Whether v, decoded, has the form that a number stands for. Of all forms but two the bytes in the file tell: such values are written as they are. Names, by far the
// most, are told right here: compiled, the test of all forms is a function of its own, since bodies are told by it, too.
fn written_form(classes: &[u8], form: u8, v: &[u8]) -> bool
    requires classes { Classes classes.now }
    requires v_value { is_some (decode v.now) ≡ true }
    ensures { result ≡ formed_by (form_numbered form) (decode v.now) }
{
    match form {
        6 => description_fits(v),
        7 => is_name_by(classes, v),
        9 => value_fits(v),
        _ => has_form(classes, form, v),
    }
}

// Whether the value from a up to e is absent, as a start of 0 says, or has the form that a number stands for.
fn value_formed(classes: &[u8], form: u8, s: &[u8], a: usize, e: usize) -> bool
    requires classes { Classes classes.now }
    requires value_stretch { ValueStretch s.now a e }
    ensures { result ≡ formed_by (form_numbered form) (value_in s.now a e) }
{
    a == 0 || written_form(classes, form, &s[a..e])
}

// Whether the values of an element's attributes have their forms.
fn values_formed(classes: &[u8], names: &[u8], s: &[u8], t: TagRead) -> bool
    requires classes { Classes classes.now × Names names.now }
    requires element_bound { t.element < 12 }
    requires stretches { Stretches s.now t.found }
    ensures { result ≡ formed_from (forms_of t.element) 0 s.now t.found }
{
    let found = t.found;
    for j in 0..8 {
        let Some(form) = form_at(names, t.element, j) else {
            return true;
        };
        if !value_formed(classes, form, s, found.starts[j], found.ends[j]) {
            return false;
        }
    }
    true
}

// Whether an item has both Value and IsNull.
fn value_beside_null(element: usize, f: Found) -> bool
    ensures { result ≡ beside_null element f.starts }
{
    element == 6 && f.starts[1] != 0 && f.starts[2] != 0
}

// Whether the attributes that an element requires are there.
fn required_there(element: usize, f: Found) -> bool
    ensures { result ≡ required_there element f.starts }
{
    let [a, b, c, d, e, ..] = f.starts;
    a != 0 && (1 < element || (b != 0 && (element == 1 || (c != 0 && d != 0 && e != 0))))
}

// Whether n is the name of the element of a tag's row, where so many elements are open: none stands in an item.
fn stands_here(names: &[u8], level: usize, element: usize, n: &[u8]) -> bool
    requires names { Names names.now }
    requires element_bound { element < 12 }
    ensures { result ≡ named_here level element n.now }
{
    level != 7 && element_name_is(names, element, n)
}

// Whether an element is of the sort of the items before it: 0 says that there were none, 1 that they are not typed.
#[tactic(auto, unfolding(crate::specs::Element::one_sort, crate::specs::Element::alike_items, crate::specs::code::Values::sort_at, names::specs::Pick::pick))]
fn one_sort(items: u8, element: usize) -> bool
    ensures { result ≡ one_sort (sort_at items) element }
{
    match items {
        0 => true,
        1 => element <= 6,
        _ => element != 6,
    }
}

// Judges an opening tag where so many elements are open, by its element, its attributes, the sort of the items before it and its values, in this order.
pub fn opening_fault(
    classes: &[u8],
    names: &[u8],
    s: &[u8],
    level: usize,
    items: u8,
    t: TagRead,
) -> Result<(), Refusal>
    requires classes { Classes classes.now × Names names.now }
    requires level_bound { (level < 8) × (t.element ≡ row_here level (name_of s.now t)) }
    requires attributed { Attributed s.now t }
    ensures { said_as (λ _. t.element) result ≡ well_placed (sort_at items) level (name_of s.now t) (attrs_of s.now t) }
{
    let a = t.name;
    let e = t.name_end;
    if !stands_here(names, level, t.element, &s[a..e]) {
        return Err(Refusal::Element);
    }
    if t.found.unknown {
        return Err(Refusal::Attribute);
    }
    if !required_there(t.element, t.found) {
        return Err(Refusal::Attribute);
    }
    if !one_sort(items, t.element) {
        return Err(Refusal::MixedItems);
    }
    if !values_formed(classes, names, s, t) {
        return Err(Refusal::Value);
    }
    if value_beside_null(t.element, t.found) {
        return Err(Refusal::Value);
    }
    Ok(())
}
