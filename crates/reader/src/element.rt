ghost use Rattle.std.specs.Prelude.{◌≡◌, suc, ◌≤◌, ◌<◌, length, drop};
ghost use Rattle.names.specs.Order.{same};
ghost use Rattle.reader.specs.Element.{element_at, item};
ghost use Rattle.reader.specs.code.Places.{part, Behind};
ghost use Rattle.reader.specs.code.AttributeNumbers.{row_of, number_of, NumberOf};
ghost use Rattle.reader.specs.code.ElementNames.{slot_text, after_slot, leads, body_code, slot_code, FormOf, Names, row_here};

use names::bytes::{begins_at, same_bytes};

// Nine slots of 24 bytes for each element: its name, and for each of its attributes a space, the name, = and a double quote, as most files write them. A slot
// is a length, that many bytes, and last the number of a form: the attribute's, or behind an element's name its body's. Where there is no attribute it is empty.
const NAMES: [u8; 2592] = *b"\
    \x03ODM\0\0\0\0\0\0\0\0\0\0\0\0\0\0\0\0\0\0\0\0\
    \x08 xmlns=\"\0\0\0\0\0\0\0\0\0\0\0\0\0\0\x01\
    \x0b FileType=\"\0\0\0\0\0\0\0\0\0\0\0\x02\
    \x0a FileOID=\"\0\0\0\0\0\0\0\0\0\0\0\0\x03\
    \x13 CreationDateTime=\"\0\0\0\x04\
    \x0d ODMVersion=\"\0\0\0\0\0\0\0\0\0\x05\
    \x0f PriorFileOID=\"\0\0\0\0\0\0\0\x03\
    \x0f AsOfDateTime=\"\0\0\0\0\0\0\0\x04\
    \x0e Description=\"\0\0\0\0\0\0\0\0\x06\
    \x0cClinicalData\0\0\0\0\0\0\0\0\0\0\0\
    \x0b StudyOID=\"\0\0\0\0\0\0\0\0\0\0\0\x03\
    \x15 MetaDataVersionOID=\"\0\x03\
    \0\0\0\0\0\0\0\0\0\0\0\0\0\0\0\0\0\0\0\0\0\0\0\0\
    \0\0\0\0\0\0\0\0\0\0\0\0\0\0\0\0\0\0\0\0\0\0\0\0\
    \0\0\0\0\0\0\0\0\0\0\0\0\0\0\0\0\0\0\0\0\0\0\0\0\
    \0\0\0\0\0\0\0\0\0\0\0\0\0\0\0\0\0\0\0\0\0\0\0\0\
    \0\0\0\0\0\0\0\0\0\0\0\0\0\0\0\0\0\0\0\0\0\0\0\0\
    \0\0\0\0\0\0\0\0\0\0\0\0\0\0\0\0\0\0\0\0\0\0\0\0\
    \x0bSubjectData\0\0\0\0\0\0\0\0\0\0\0\0\
    \x0d SubjectKey=\"\0\0\0\0\0\0\0\0\0\x07\
    \x12 TransactionType=\"\0\0\0\0\x08\
    \0\0\0\0\0\0\0\0\0\0\0\0\0\0\0\0\0\0\0\0\0\0\0\0\
    \0\0\0\0\0\0\0\0\0\0\0\0\0\0\0\0\0\0\0\0\0\0\0\0\
    \0\0\0\0\0\0\0\0\0\0\0\0\0\0\0\0\0\0\0\0\0\0\0\0\
    \0\0\0\0\0\0\0\0\0\0\0\0\0\0\0\0\0\0\0\0\0\0\0\0\
    \0\0\0\0\0\0\0\0\0\0\0\0\0\0\0\0\0\0\0\0\0\0\0\0\
    \0\0\0\0\0\0\0\0\0\0\0\0\0\0\0\0\0\0\0\0\0\0\0\0\
    \x0eStudyEventData\0\0\0\0\0\0\0\0\0\
    \x10 StudyEventOID=\"\0\0\0\0\0\0\x07\
    \x16 StudyEventRepeatKey=\"\x07\
    \x12 TransactionType=\"\0\0\0\0\x08\
    \0\0\0\0\0\0\0\0\0\0\0\0\0\0\0\0\0\0\0\0\0\0\0\0\
    \0\0\0\0\0\0\0\0\0\0\0\0\0\0\0\0\0\0\0\0\0\0\0\0\
    \0\0\0\0\0\0\0\0\0\0\0\0\0\0\0\0\0\0\0\0\0\0\0\0\
    \0\0\0\0\0\0\0\0\0\0\0\0\0\0\0\0\0\0\0\0\0\0\0\0\
    \0\0\0\0\0\0\0\0\0\0\0\0\0\0\0\0\0\0\0\0\0\0\0\0\
    \x08FormData\0\0\0\0\0\0\0\0\0\0\0\0\0\0\0\
    \x0a FormOID=\"\0\0\0\0\0\0\0\0\0\0\0\0\x07\
    \x10 FormRepeatKey=\"\0\0\0\0\0\0\x07\
    \x12 TransactionType=\"\0\0\0\0\x08\
    \0\0\0\0\0\0\0\0\0\0\0\0\0\0\0\0\0\0\0\0\0\0\0\0\
    \0\0\0\0\0\0\0\0\0\0\0\0\0\0\0\0\0\0\0\0\0\0\0\0\
    \0\0\0\0\0\0\0\0\0\0\0\0\0\0\0\0\0\0\0\0\0\0\0\0\
    \0\0\0\0\0\0\0\0\0\0\0\0\0\0\0\0\0\0\0\0\0\0\0\0\
    \0\0\0\0\0\0\0\0\0\0\0\0\0\0\0\0\0\0\0\0\0\0\0\0\
    \x0dItemGroupData\0\0\0\0\0\0\0\0\0\0\
    \x0f ItemGroupOID=\"\0\0\0\0\0\0\0\x07\
    \x15 ItemGroupRepeatKey=\"\0\x07\
    \x12 TransactionType=\"\0\0\0\0\x08\
    \0\0\0\0\0\0\0\0\0\0\0\0\0\0\0\0\0\0\0\0\0\0\0\0\
    \0\0\0\0\0\0\0\0\0\0\0\0\0\0\0\0\0\0\0\0\0\0\0\0\
    \0\0\0\0\0\0\0\0\0\0\0\0\0\0\0\0\0\0\0\0\0\0\0\0\
    \0\0\0\0\0\0\0\0\0\0\0\0\0\0\0\0\0\0\0\0\0\0\0\0\
    \0\0\0\0\0\0\0\0\0\0\0\0\0\0\0\0\0\0\0\0\0\0\0\0\
    \x08ItemData\0\0\0\0\0\0\0\0\0\0\0\0\0\0\0\
    \x0a ItemOID=\"\0\0\0\0\0\0\0\0\0\0\0\0\x07\
    \x08 Value=\"\0\0\0\0\0\0\0\0\0\0\0\0\0\0\x09\
    \x09 IsNull=\"\0\0\0\0\0\0\0\0\0\0\0\0\0\x0a\
    \x12 TransactionType=\"\0\0\0\0\x08\
    \0\0\0\0\0\0\0\0\0\0\0\0\0\0\0\0\0\0\0\0\0\0\0\0\
    \0\0\0\0\0\0\0\0\0\0\0\0\0\0\0\0\0\0\0\0\0\0\0\0\
    \0\0\0\0\0\0\0\0\0\0\0\0\0\0\0\0\0\0\0\0\0\0\0\0\
    \0\0\0\0\0\0\0\0\0\0\0\0\0\0\0\0\0\0\0\0\0\0\0\0\
    \x0eItemDataString\0\0\0\0\0\0\0\0\x09\
    \x0a ItemOID=\"\0\0\0\0\0\0\0\0\0\0\0\0\x07\
    \x12 TransactionType=\"\0\0\0\0\x08\
    \0\0\0\0\0\0\0\0\0\0\0\0\0\0\0\0\0\0\0\0\0\0\0\0\
    \0\0\0\0\0\0\0\0\0\0\0\0\0\0\0\0\0\0\0\0\0\0\0\0\
    \0\0\0\0\0\0\0\0\0\0\0\0\0\0\0\0\0\0\0\0\0\0\0\0\
    \0\0\0\0\0\0\0\0\0\0\0\0\0\0\0\0\0\0\0\0\0\0\0\0\
    \0\0\0\0\0\0\0\0\0\0\0\0\0\0\0\0\0\0\0\0\0\0\0\0\
    \0\0\0\0\0\0\0\0\0\0\0\0\0\0\0\0\0\0\0\0\0\0\0\0\
    \x0fItemDataInteger\0\0\0\0\0\0\0\x0b\
    \x0a ItemOID=\"\0\0\0\0\0\0\0\0\0\0\0\0\x07\
    \x12 TransactionType=\"\0\0\0\0\x08\
    \0\0\0\0\0\0\0\0\0\0\0\0\0\0\0\0\0\0\0\0\0\0\0\0\
    \0\0\0\0\0\0\0\0\0\0\0\0\0\0\0\0\0\0\0\0\0\0\0\0\
    \0\0\0\0\0\0\0\0\0\0\0\0\0\0\0\0\0\0\0\0\0\0\0\0\
    \0\0\0\0\0\0\0\0\0\0\0\0\0\0\0\0\0\0\0\0\0\0\0\0\
    \0\0\0\0\0\0\0\0\0\0\0\0\0\0\0\0\0\0\0\0\0\0\0\0\
    \0\0\0\0\0\0\0\0\0\0\0\0\0\0\0\0\0\0\0\0\0\0\0\0\
    \x0dItemDataFloat\0\0\0\0\0\0\0\0\0\x0c\
    \x0a ItemOID=\"\0\0\0\0\0\0\0\0\0\0\0\0\x07\
    \x12 TransactionType=\"\0\0\0\0\x08\
    \0\0\0\0\0\0\0\0\0\0\0\0\0\0\0\0\0\0\0\0\0\0\0\0\
    \0\0\0\0\0\0\0\0\0\0\0\0\0\0\0\0\0\0\0\0\0\0\0\0\
    \0\0\0\0\0\0\0\0\0\0\0\0\0\0\0\0\0\0\0\0\0\0\0\0\
    \0\0\0\0\0\0\0\0\0\0\0\0\0\0\0\0\0\0\0\0\0\0\0\0\
    \0\0\0\0\0\0\0\0\0\0\0\0\0\0\0\0\0\0\0\0\0\0\0\0\
    \0\0\0\0\0\0\0\0\0\0\0\0\0\0\0\0\0\0\0\0\0\0\0\0\
    \x0cItemDataDate\0\0\0\0\0\0\0\0\0\0\x0d\
    \x0a ItemOID=\"\0\0\0\0\0\0\0\0\0\0\0\0\x07\
    \x12 TransactionType=\"\0\0\0\0\x08\
    \0\0\0\0\0\0\0\0\0\0\0\0\0\0\0\0\0\0\0\0\0\0\0\0\
    \0\0\0\0\0\0\0\0\0\0\0\0\0\0\0\0\0\0\0\0\0\0\0\0\
    \0\0\0\0\0\0\0\0\0\0\0\0\0\0\0\0\0\0\0\0\0\0\0\0\
    \0\0\0\0\0\0\0\0\0\0\0\0\0\0\0\0\0\0\0\0\0\0\0\0\
    \0\0\0\0\0\0\0\0\0\0\0\0\0\0\0\0\0\0\0\0\0\0\0\0\
    \0\0\0\0\0\0\0\0\0\0\0\0\0\0\0\0\0\0\0\0\0\0\0\0\
    \x10ItemDataDatetime\0\0\0\0\0\0\x04\
    \x0a ItemOID=\"\0\0\0\0\0\0\0\0\0\0\0\0\x07\
    \x12 TransactionType=\"\0\0\0\0\x08\
    \0\0\0\0\0\0\0\0\0\0\0\0\0\0\0\0\0\0\0\0\0\0\0\0\
    \0\0\0\0\0\0\0\0\0\0\0\0\0\0\0\0\0\0\0\0\0\0\0\0\
    \0\0\0\0\0\0\0\0\0\0\0\0\0\0\0\0\0\0\0\0\0\0\0\0\
    \0\0\0\0\0\0\0\0\0\0\0\0\0\0\0\0\0\0\0\0\0\0\0\0\
    \0\0\0\0\0\0\0\0\0\0\0\0\0\0\0\0\0\0\0\0\0\0\0\0\
    \0\0\0\0\0\0\0\0\0\0\0\0\0\0\0\0\0\0\0\0\0\0\0\0\
    ";

// The table, for a caller to keep and lend: compiled, a constant array is written anew wherever it is named.
pub fn element_names() -> [u8; 2592]
    ensures { Names result }
{
    NAMES
}

// The place behind the text of a slot of an element's, if it has one and that stands in s at `at`.
pub fn after_slot(names: &[u8], s: &[u8], at: usize, element: usize, slot: usize) -> Option<usize>
    requires names { Names names.now }
    requires at_in_bounds { (at ≤ length s.now) × (element < 12) × (slot < 9) }
    ensures { Behind s.now at result (after_slot (slot_text element slot) (drop at s.now)) }
{
    let p = 24 * (9 * element + slot);
    let n = names[p] as usize;
    if n == 0 || !begins_at(s, at, &names[p + 1..p + 1 + n]) {
        return None;
    }
    Some(at + n)
}

// Whether n is the attribute of number j of an element. Mostly the length tells.
fn same_slot(names: &[u8], element: usize, j: usize, n: &[u8]) -> bool
    requires names { Names names.now }
    requires element_bound { (element < 12) × (j < 8) }
    ensures { result ≡ leads (drop j (row_of (element_at element))) n.now }
{
    let p = 24 * (9 * element + (j + 1));
    let l = names[p] as usize;
    3 <= l && n.len() == l - 3 && same_bytes(&names[p + 2..p + l - 1], n)
}

// The number of the attribute n in the row of an element, if it is there.
pub fn attribute_number(names: &[u8], element: usize, n: &[u8]) -> Option<usize>
    requires names { Names names.now }
    requires element_bound { element < 12 }
    ensures { NumberOf (number_of element n.now) result }
{
    (0..8).find(|j| same_slot(names, element, *j, n))
}

// The number of the form in a slot of an element, if there is one.
fn slot_form(names: &[u8], element: usize, slot: usize) -> Option<u8>
    requires names { Names names.now }
    requires element_bound { (element < 12) × (slot < 9) }
    ensures { FormOf (slot_code element slot) result }
{
    match names[24 * (9 * element + slot) + 23] {
        0 => None,
        form => Some(form),
    }
}

// The number of the form of the attribute of number j of an element, if there is one.
pub fn form_at(names: &[u8], element: usize, j: usize) -> Option<u8>
    requires names { Names names.now }
    requires element_bound { (element < 12) × (j < 8) }
    ensures { FormOf (slot_code element (suc j)) result }
{
    slot_form(names, element, j + 1)
}

// The number of the form of an element's body, if it has one.
pub fn body_form(names: &[u8], element: usize) -> Option<u8>
    requires names { Names names.now }
    requires element_bound { element < 12 }
    ensures { FormOf (body_code (element_at element).body) result }
{
    slot_form(names, element, 0)
}

// Whether n is the name of an element.
pub fn element_name_is(names: &[u8], element: usize, n: &[u8]) -> bool
    requires names { Names names.now }
    requires element_bound { element < 12 }
    ensures { result ≡ same n.now (element_at element).name }
{
    after_slot(names, n, 0, element, 0).is_some_and(|e| e == n.len())
}

// The row of an item of this name: ItemData's, where no typed item has it.
fn item_row(names: &[u8], n: &[u8]) -> usize
    requires { Names names.now }
    ensures { (result ≡ row_here item n.now) × (result < 12) }
{
    (7..12).find(|e| element_name_is(names, *e, n)).unwrap_or(6)
}

// The row that lists the attributes of a tag where so many elements are open: the level's, or where items stand that of its name, from a up to b. Most are
// ItemData, whose name is shorter than any typed item's: they are told without a look at it.
pub fn row_here(names: &[u8], level: usize, s: &[u8], a: usize, b: usize) -> usize
    requires names { Names names.now }
    requires level_bound { level < 8 }
    requires a_le_b { (a ≤ b) × (b ≤ length s.now) }
    ensures { (result ≡ row_here level (part s.now a b)) × (result < 12) }
{
    if level != 6 {
        return level;
    }
    if b - a <= 8 {
        return 6;
    }
    item_row(names, &s[a..b])
}
