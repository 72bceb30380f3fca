ghost use Rattle.std.specs.Prelude.{◌≡◌};
ghost use Rattle.names.specs.code.ByteClasses.{Classes};
ghost use Rattle.names.specs.Name.{is_name_of, is_name, is_long_name, is_text_of, is_value};

use crate::class::{byte_classes, is_name_byte, is_value_byte};

// The longest name, long name and value.
pub const NAME_MOST: usize = 16;

pub const LONG_NAME_MOST: usize = 64;

pub const VALUE_MOST: usize = 40;

// 1 to most name bytes.
fn is_name_of(classes: &[u8], s: &[u8], most: usize) -> bool
    requires { Classes classes.now }
    ensures { result ≡ is_name_of most s.now }
{
    !s.is_empty() && s.len() <= most && s.iter().all(|b| is_name_byte(classes, *b))
}

// By the class table that the caller keeps, for many names.
#[tactic(auto, unfolding(crate::specs::Name::is_name))]
pub fn is_name_by(classes: &[u8], s: &[u8]) -> bool
    requires { Classes classes.now }
    ensures { result ≡ is_name s.now }
{
    is_name_of(classes, s, NAME_MOST)
}

#[tactic(auto, unfolding(crate::specs::Name::is_long_name))]
pub fn is_long_name(s: &[u8]) -> bool
    ensures { result ≡ is_long_name s.now }
{
    let classes = byte_classes();
    is_name_of(&classes, s, LONG_NAME_MOST)
}

// 0 to most bytes from 32 to 126.
pub fn is_text_of(s: &[u8], most: usize) -> bool
    ensures { result ≡ is_text_of most s.now }
{
    s.len() <= most && s.iter().all(|b| is_value_byte(*b))
}

#[tactic(auto, unfolding(crate::specs::Name::is_value))]
pub fn is_value(s: &[u8]) -> bool
    ensures { result ≡ is_value s.now }
{
    is_text_of(s, VALUE_MOST)
}
