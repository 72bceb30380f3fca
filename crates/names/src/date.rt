ghost use Rattle.std.specs.Prelude.{◌≡◌, length, ◌+◌, ◌-◌, ◌*◌, ◌≤◌};
ghost use Rattle.names.specs.Date.{date_size, day_size, is_date, is_day_text, is_day, is_time, shows_day, is_leap, days_in, two_digits, fits_byte, not_later};
ghost use Rattle.names.specs.Order.{alike};
ghost use Rattle.names.specs.Pick.{◌and◌};

use crate::bytes::bytes_order;
use crate::class::is_digit;

pub const DATE_SIZE: usize = 19;

// Whether c may stand where a picture has p: `d` stands for a digit, any other byte for itself.
#[tactic(auto, unfolding(crate::specs::Date::fits_byte, crate::specs::Pick::pick))]
fn fits_byte(p: u8, c: u8) -> bool
    ensures { result ≡ fits_byte p c }
{
    if p == b'd' { is_digit(c) } else { p == c }
}

// Whether s has the form that the picture shows.
fn fits_picture(p: &[u8], s: &[u8]) -> bool
    ensures { result ≡ alike fits_byte p.now s.now }
{
    p.len() == s.len() && p.iter().zip(s).all(|(p, c)| fits_byte(*p, *c))
}

fn digit(c: u8) -> usize
    ensures { (result ≡ c - 48) × (result ≤ 207) }
{
    usize::from(c.saturating_sub(b'0'))
}

// The number that two digits write.
#[tactic(auto, unfolding(crate::specs::Date::two_digits))]
fn two_digits(s: &[u8], at: usize) -> usize
    requires { at + 2 ≤ length s.now }
    ensures { (result ≡ two_digits s.now at) × (result ≤ 2277) }
{
    10 * digit(s[at]) + digit(s[at + 1])
}

#[tactic(auto, unfolding(crate::specs::Date::is_leap, crate::specs::Pick::pick))]
fn is_leap(y: usize) -> bool
    ensures { result ≡ is_leap y }
{
    if y % 100 == 0 {
        y % 400 == 0
    } else {
        y % 4 == 0
    }
}

#[tactic(auto, unfolding(crate::specs::Date::days_in, crate::specs::Pick::pick))]
fn days_in(y: usize, m: usize) -> usize
    ensures { result ≡ days_in y m }
{
    match m {
        2 if is_leap(y) => 29,
        2 => 28,
        4 | 6 | 9 | 11 => 30,
        _ => 31,
    }
}

// Year, month and day are those of the calendar.
fn is_day(y: usize, m: usize, d: usize) -> bool
    ensures { result ≡ is_day y m d }
{
    1 <= y && 1 <= m && m <= 12 && 1 <= d && d <= days_in(y, m)
}

// Hour, minute and second are those of the clock.
#[tactic(auto, using(crate::proofs::PickLaws::and_is), unfolding(crate::specs::Date::is_time))]
fn is_time(h: usize, m: usize, s: usize) -> bool
    ensures { result ≡ is_time h m s }
{
    h <= 23 && m <= 59 && s <= 59
}

// In a text that is long enough, whether its first numbers show a day of the calendar.
fn has_day(s: &[u8]) -> bool
    requires { day_size ≤ length s.now }
    ensures { result ≡ shows_day s.now }
{
    let y = 100 * two_digits(s, 0) + two_digits(s, 2);
    is_day(y, two_digits(s, 5), two_digits(s, 8))
}

// In a text as long as a date, whether they do, and the others show a time of the clock.
fn has_date(s: &[u8]) -> bool
    requires { length s.now ≡ date_size }
    ensures { let n = two_digits s.now in result ≡ (shows_day s.now and is_time (n 11) (n 14) (n 17)) }
{
    has_day(s) && is_time(two_digits(s, 11), two_digits(s, 14), two_digits(s, 17))
}

pub fn is_date(s: &[u8]) -> bool
    ensures { result ≡ is_date s.now }
{
    fits_picture(b"dddd-dd-ddTdd:dd:dd", s) && has_date(s)
}

// Whether s is a day as a text: a date up to its `T`.
pub fn is_day_text(s: &[u8]) -> bool
    ensures { result ≡ is_day_text s.now }
{
    fits_picture(b"dddd-dd-dd", s) && has_day(s)
}

// Whether a date is not later than another.
pub fn not_later(a: &[u8], b: &[u8]) -> bool
    ensures { result ≡ not_later a.now b.now }
{
    bytes_order(a, b).is_le()
}
