ghost use Rattle.std.specs.Prelude.{◌≡◌, ◌≤◌, ◌<◌, is_some, IfOk};
ghost use Rattle.names.specs.Bytes.{bytes};
ghost use Rattle.reader.specs.Element.{word, has_form, get};
ghost use Rattle.reader.specs.code.Placed.{Placed};
ghost use Rattle.reader.specs.code.Found.{attrs_of};
ghost use Rattle.reader.specs.Tell.{word_of, given, word_here};
ghost use Rattle.reader.specs.code.Answered.{Attributed};
ghost use Rattle.reader.specs.code.OpenElements.{maybe_word, word_or_context, word_held, Numbered, top_word, sort_number, none_open, moved_by, word_answered, word_place};

use crate::cursor::TagRead;
use names::bytes::same_bytes;
use store::answer::Refusal;
use store::decide::{CONTEXT, INSERT, REMOVE, UPDATE, UPSERT};

// The open elements below ODM: how many, and the number of each one's word, the outermost first (0: none); and the sort of the file's items so far: 0 none
// was met, 1 untyped, 2 typed.
// The words are held as numbers: eight Options would be twice as long, and the struct is copied with each tag.
// The sort of the items stays a number: `opening_fault`, which is pub, takes it, and any byte.
#[derive(Clone, Copy)]
pub struct OpenElements {
    pub level: usize,
    pub words: [u8; 8],
    pub items: u8,
}

impl OpenElements {
    // None is open, and no item was met.
    pub fn none() -> OpenElements
        ensures { result ≡ none_open }
    {
        OpenElements {
            level: 0,
            words: [0; 8],
            items: 0,
        }
    }

    // The number of the innermost one's word, if it has one.
    pub fn word(self) -> Option<u8>
        requires { self.level ≤ 6 }
        ensures { result ≡ word_held (top_word self) }
    {
        if self.level == 0 {
            return None;
        }
        let words = self.words;
        match words[self.level - 1] {
            0 => None,
            word => Some(word),
        }
    }

    // What is open behind a tag of a kind that opens or closes an element with this word.
    pub fn moved(self, element: usize, kind: u8, word: u8) -> OpenElements
        requires { (kind ≡ 0 → self.level ≤ 5) × ((kind ≡ 0 → ⊥) → (kind ≡ 1 → ⊥) → 1 ≤ self.level) }
        ensures { result ≡ moved_by self element kind word }
    {
        let items = sort_number(element, self.items);
        match kind {
            0 => {
                let mut words = self.words;
                words[self.level] = word;
                OpenElements {
                    level: self.level + 1,
                    words,
                    items,
                }
            }
            1 => OpenElements { items, ..self },
            _ => OpenElements {
                level: self.level - 1,
                ..self
            },
        }
    }
}

// The sort of the items so far behind an element.
#[tactic(auto, unfolding(crate::specs::code::OpenElements::sort_number, names::specs::Pick::pick))]
fn sort_number(element: usize, items: u8) -> u8
    ensures { result ≡ sort_number element items }
{
    match element {
        0..=5 => items,
        6 => 1,
        _ => 2,
    }
}

// The number of the word that a text writes, if it is one. One text after another: a match by bytes leaves 33 goals, and none was closed.
pub fn word_number(v: &[u8]) -> Option<u8>
    ensures { (word_or_context result ≡ word_of v.now) × (is_some result ≡ has_form word v.now) × Numbered result }
{
    if same_bytes(v, b"Insert") {
        return Some(INSERT);
    }
    if same_bytes(v, b"Update") {
        return Some(UPDATE);
    }
    if same_bytes(v, b"Upsert") {
        return Some(UPSERT);
    }
    if same_bytes(v, b"Remove") {
        return Some(REMOVE);
    }
    if same_bytes(v, b"Context") {
        return Some(CONTEXT);
    }
    None
}

// The number of the word that an entity's element has of its own, if any, in its attribute of number j.
fn word_in(s: &[u8], t: TagRead, j: usize) -> Option<u8>
    requires le_element { (2 ≤ t.element) × (j < 8) × (j ≡ word_place t.element) }
    requires attributed { Attributed s.now t }
    requires placed { Placed t.element (attrs_of s.now t) }
    ensures { (maybe_word result ≡ given (get (bytes "TransactionType") (attrs_of s.now t))) × Numbered result }
{
    let found = t.found;
    let a = found.starts[j];
    let e = found.ends[j];
    if a == 0 {
        return None;
    }
    word_number(&s[a..e])
}

// The same by the place of TransactionType among the element's attributes. Each place is a number in the code, so that the tag's arrays need not be copied to be looked up.
#[tactic(auto, unfolding(crate::specs::code::OpenElements::word_place, names::specs::Pick::pick))]
pub fn own_word(s: &[u8], t: TagRead) -> Option<u8>
    requires le_element { 2 ≤ t.element }
    requires attributed { Attributed s.now t }
    requires placed { Placed t.element (attrs_of s.now t) }
    ensures { (maybe_word result ≡ given (get (bytes "TransactionType") (attrs_of s.now t))) × Numbered result }
{
    match t.element {
        2 | 7.. => word_in(s, t, 1),
        6 => word_in(s, t, 3),
        _ => word_in(s, t, 2),
    }
}

// The word of an entity's element, by whether the file is a Snapshot, by the word of the element around it and by its own.
pub fn word_by(snapshot: bool, outer: Option<u8>, own: Option<u8>) -> Result<u8, Refusal>
    ensures answered { word_answered result ≡ word_here snapshot (maybe_word outer) (maybe_word own) }
    ensures numbered { Numbered outer → Numbered own → IfOk result (λ n. 1 ≤ n) }
{
    match (snapshot, own) {
        (true, None | Some(INSERT)) => Ok(INSERT),
        (true, Some(_)) => Err(Refusal::Word),
        (false, None) => outer.ok_or(Refusal::Word),
        (false, Some(REMOVE)) => Ok(REMOVE),
        (false, Some(word)) => match outer {
            Some(REMOVE) => Err(Refusal::Word),
            _ => Ok(word),
        },
    }
}
