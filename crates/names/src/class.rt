ghost use Rattle.std.specs.Prelude.{◌≡◌};
ghost use Rattle.names.specs.Class.{class_of, is_white, is_digit, is_name_byte, is_value_byte};
ghost use Rattle.names.specs.code.ByteClasses.{Classes};

// The class of each byte.
const CLASSES: [u8; 256] = [
    0, 0, 0, 0, 0, 0, 0, 0, 0, 1, 1, 0, 0, 1, 0, 0, 0, 0, 0, 0, 0, 0, 0, 0, 0, 0, 0, 0, 0, 0, 0, 0,
    1, 5, 4, 5, 5, 5, 4, 4, 5, 5, 5, 5, 5, 3, 3, 3, 2, 2, 2, 2, 2, 2, 2, 2, 2, 2, 5, 5, 4, 5, 4, 5,
    5, 2, 2, 2, 2, 2, 2, 2, 2, 2, 2, 2, 2, 2, 2, 2, 2, 2, 2, 2, 2, 2, 2, 2, 2, 2, 2, 5, 5, 5, 5, 3,
    5, 2, 2, 2, 2, 2, 2, 2, 2, 2, 2, 2, 2, 2, 2, 2, 2, 2, 2, 2, 2, 2, 2, 2, 2, 2, 2, 5, 5, 5, 5, 0,
    0, 0, 0, 0, 0, 0, 0, 0, 0, 0, 0, 0, 0, 0, 0, 0, 0, 0, 0, 0, 0, 0, 0, 0, 0, 0, 0, 0, 0, 0, 0, 0,
    0, 0, 0, 0, 0, 0, 0, 0, 0, 0, 0, 0, 0, 0, 0, 0, 0, 0, 0, 0, 0, 0, 0, 0, 0, 0, 0, 0, 0, 0, 0, 0,
    0, 0, 0, 0, 0, 0, 0, 0, 0, 0, 0, 0, 0, 0, 0, 0, 0, 0, 0, 0, 0, 0, 0, 0, 0, 0, 0, 0, 0, 0, 0, 0,
    0, 0, 0, 0, 0, 0, 0, 0, 0, 0, 0, 0, 0, 0, 0, 0, 0, 0, 0, 0, 0, 0, 0, 0, 0, 0, 0, 0, 0, 0, 0, 0,
];

// Classes by their numbers. No enum: document 01 names one constant table, `class_of` answers what stands in it, and a second form would be one more to go through at each byte.
pub const WHITE: u8 = 1;

pub const LETTER_OR_DIGIT: u8 = 2;

pub const NAME_MARK: u8 = 3;

pub const MARKUP: u8 = 4;

// The table, for a caller to keep and lend: compiled, a constant array is written anew wherever it is named.
pub fn byte_classes() -> [u8; 256]
    ensures { Classes result }
{
    CLASSES
}

// The table is lent as a slice, with its rule required, and is no struct that holds the rule: a public function's parameter is not to get narrower.
// 1: white space; 2: letter or digit; 3: another name byte; 4: markup; 5: any other of 33 to 126; 0: never allowed.
#[tactic(auto, using(crate::proofs::ClassLaws::table_entries))]
pub fn class_of(classes: &[u8], b: u8) -> u8
    requires { Classes classes.now }
    ensures { result ≡ class_of b }
{
    classes[b as usize]
}

#[tactic(auto, using(crate::proofs::ClassLaws::white_class))]
pub fn is_white(classes: &[u8], b: u8) -> bool
    requires { Classes classes.now }
    ensures { result ≡ is_white b }
{
    class_of(classes, b) == WHITE
}

#[tactic(auto, using(crate::proofs::ClassLaws::name_class))]
pub fn is_name_byte(classes: &[u8], b: u8) -> bool
    requires { Classes classes.now }
    ensures { result ≡ is_name_byte b }
{
    matches!(class_of(classes, b), LETTER_OR_DIGIT | NAME_MARK)
}

// By its bounds, with no table.
#[tactic(auto, unfolding(crate::specs::Class::is_digit))]
pub fn is_digit(b: u8) -> bool
    ensures { result ≡ is_digit b }
{
    b.is_ascii_digit()
}

#[tactic(auto, unfolding(crate::specs::Class::is_value_byte))]
pub fn is_value_byte(b: u8) -> bool
    ensures { result ≡ is_value_byte b }
{
    matches!(b, 32..=126)
}
