ghost use Rattle.std.specs.Prelude.{◌≡◌};
ghost use Rattle.names.specs.Bytes.{ch};
ghost use Rattle.names.specs.Class.{is_digit};
ghost use Rattle.names.specs.Number.{is_digits, without, is_fraction, is_number};
ghost use Rattle.names.specs.Pick.{◌and◌};
ghost use Rattle.names.specs.Scan.{front, after};

use crate::class::is_digit;

// One or more digits.
fn is_digits(s: &[u8]) -> bool
    ensures { result ≡ is_digits s.now }
{
    !s.is_empty() && s.iter().all(|b| is_digit(*b))
}

// Nothing, or `.` and one or more digits.
#[tactic(auto, using(crate::proofs::NumberLaws::fraction_tells))]
fn is_fraction(s: &[u8]) -> bool
    ensures { result ≡ is_fraction s.now }
{
    match s {
        [] => true,
        [b'.', digits @ ..] => is_digits(digits),
        _ => false,
    }
}

// A float with no sign. The digits are passed once: the fraction is looked for where they end.
fn is_float(s: &[u8]) -> bool
    ensures { result ≡ (is_digits (front is_digit s.now) and is_fraction (after is_digit s.now)) }
{
    let digits = s.iter().position(|b| !is_digit(*b)).unwrap_or(s.len());
    0 < digits && is_fraction(&s[digits..])
}

// What is to be digits: all but a `-`, where it is the first byte.
#[tactic(auto, using(crate::proofs::NumberLaws::sign_tells))]
fn unsigned(s: &[u8]) -> &[u8]
    ensures { result.now ≡ without (ch "-") s.now }
{
    match s {
        [b'-', rest @ ..] => rest,
        _ => s,
    }
}

// Whether s is an integer, or a float where a fraction is allowed.
#[tactic(auto, unfolding(crate::specs::Number::is_number))]
pub fn is_number(s: &[u8], fraction: bool) -> bool
    ensures { result ≡ is_number fraction s.now }
{
    let s = unsigned(s);
    if fraction { is_float(s) } else { is_digits(s) }
}
