ghost use Rattle.std.specs.Prelude.{◌≡◌, Bool, [], ◌∷◌, ℕ, ◌≤◌, length, drop};
ghost use Rattle.names.specs.Bytes.{all};
ghost use Rattle.names.specs.Class.{is_letter, is_white, is_value_byte};
ghost use Rattle.names.specs.code.ByteClasses.{Classes};
ghost use Rattle.names.specs.code.Scanned.{Scanned};
ghost use Rattle.names.specs.Scan.{front};
ghost use Rattle.names.specs.Text.{decode, in_value};
ghost use Rattle.reader.specs.Tag.{is_tag_byte, is_quote, strip};
ghost use Rattle.reader.specs.code.Places.{is_some, Behind};
ghost use Rattle.reader.specs.code.ByteRun.{is_bare, Tests, Runs};

use names::class::{LETTER_OR_DIGIT, MARKUP, class_of, is_value_byte, is_white};
use names::text::entity_at;

// How many bytes of a long run are taken at a time.
pub const BLOCK: usize = 64;

#[tactic(auto, using(crate::proofs::TagBytes::letter_bytes))]
pub fn is_letter(classes: &[u8], b: u8) -> bool
    requires { Classes classes.now }
    ensures { result ≡ is_letter b }
{
    b'A' <= b && class_of(classes, b) == LETTER_OR_DIGIT
}

#[tactic(auto, using(crate::proofs::TagBytes::tag_bytes))]
pub fn is_tag_byte(classes: &[u8], b: u8) -> bool
    requires { Classes classes.now }
    ensures { result ≡ is_tag_byte b }
{
    b == b':' || class_of(classes, b) == LETTER_OR_DIGIT
}

#[tactic(auto, unfolding(crate::specs::Tag::is_quote))]
pub fn is_quote(b: u8) -> bool
    ensures { result ≡ is_quote b }
{
    matches!(b, b'"' | b'\'')
}

// Whether b may stand between two quotes q.
#[tactic(auto, using(crate::proofs::TagBytes::value_bytes))]
pub fn in_value(q: u8, b: u8) -> bool
    ensures { result ≡ in_value q b }
{
    b != q && b != b'<' && is_value_byte(b)
}

// Whether b stands in a value as it is, in whichever quotes; a space and `>` may too, but are not told so.
#[tactic(auto, using(crate::proofs::ByteRuns::bare_bytes))]
fn is_bare(classes: &[u8], b: u8) -> bool
    requires { Classes classes.now }
    ensures { result ≡ is_bare b }
{
    let k = class_of(classes, b);
    LETTER_OR_DIGIT <= k && k != MARKUP
}

// The tests of white space and of a tag byte by comparisons, with no table: of a block they are made for many bytes at a time.
#[tactic(auto, unfolding(names::specs::Class::is_white))]
fn compares_white(b: u8) -> bool
    ensures { result ≡ is_white b }
{
    matches!(b, b'\t' | b'\n' | b'\r' | b' ')
}

#[tactic(auto, using(crate::proofs::TagBytes::tag_colon, crate::proofs::ByteRuns::alphanumeric))]
fn compares_tag_byte(b: u8) -> bool
    ensures { result ≡ is_tag_byte b }
{
    b == b':' || b.is_ascii_alphanumeric()
}

// Whether all bytes pass a test. There is no early exit, so that the compiler takes many bytes at a time: `all`, which has one, takes 9 to 17 times as long.
fn all_pass<F: Fn(u8) -> bool>(s: &[u8], test: F) -> bool
    requires { F.IsAlwaysCallable test }
    ensures { (p : ℕ → Bool) → Tests (F.post test) p → result ≡ all p s.now }
{
    let mut passed = true;
    for b in s {
        passed &= test(*b);
    }
    passed
}

// A place up to which the bytes from at on pass a test: blocks of them.
fn blocks_of<F: Fn(u8) -> bool + Copy>(s: &[u8], at: usize, test: F) -> usize
    requires callable { F.IsAlwaysCallable test }
    requires at_in_bounds { at ≤ length s.now }
    ensures within { (at ≤ result) × (result ≤ length s.now) }
    ensures run { (p : ℕ → Bool) → Tests (F.post test) p → Runs p s.now at result }
{
    let mut i = at;
    for block in s[at..].chunks_exact(BLOCK) {
        if !all_pass(block, test) {
            return i;
        }
        i += BLOCK;
    }
    i
}

// How many bytes at the front pass a test.
fn run_len<F: Fn(u8) -> bool>(s: &[u8], test: F) -> usize
    requires { F.IsAlwaysCallable test }
    ensures within { result ≤ length s.now }
    ensures run { (p : ℕ → Bool) → Tests (F.post test) p → result ≡ length (front p s.now) }
{
    s.iter().position(|b| !test(*b)).unwrap_or(s.len())
}

// The place behind the bytes from at on that pass a test: by blocks, then byte by byte.
fn run_of<F: Fn(u8) -> bool + Copy>(s: &[u8], at: usize, test: F) -> usize
    requires callable { F.IsAlwaysCallable test }
    requires at_in_bounds { at ≤ length s.now }
    ensures { (p : ℕ → Bool) → Tests (F.post test) p → Scanned p s.now at result }
{
    let i = blocks_of(s, at, test);
    i + run_len(&s[i..], test)
}

// The same of a run that mostly ends within n bytes: for so few no block is worth taking, and a table tells sooner than comparisons. It tells what the blocks leave, too.
fn short_run<F: Fn(u8) -> bool + Copy, G: Fn(u8) -> bool + Copy>(
    s: &[u8],
    at: usize,
    n: usize,
    looks_up: F,
    compares: G,
) -> usize
    requires callable { F.IsAlwaysCallable looks_up × G.IsAlwaysCallable compares }
    requires at_in_bounds { at ≤ length s.now }
    ensures { (p : ℕ → Bool) → Tests (F.post looks_up) p → Tests (G.post compares) p → Scanned p s.now at result }
{
    let end = at + n.min(s.len() - at);
    let i = at + run_len(&s[at..end], looks_up);
    if i < end {
        return i;
    }
    let j = blocks_of(s, i, compares);
    j + run_len(&s[j..], looks_up)
}

// The end of what is tried for blocks of a byte, of which one goes up to a place: that place, where another byte stands there.
fn tried_to(s: &[u8], next: usize, w: u8) -> usize
    requires { next ≤ length s.now }
    ensures { (next ≤ result) × (result ≤ length s.now) }
{
    if next < s.len() && s[next] == w {
        s.len()
    } else {
        next
    }
}

// A place up to which there is white space from at on: blocks of one white byte, then of another. One comparison of each byte: 262,144 tabs take 11 µs so, where
// all four take 21.
fn white_blocks(classes: &[u8], s: &[u8], at: usize) -> usize
    requires classes { Classes classes.now }
    requires at_in_bounds { at ≤ length s.now }
    ensures { Runs is_white s.now at result }
{
    let mut i = at;
    // By while: a turn passes as many blocks as are of one byte. Of a block of one byte the middle and the end are the same, which is told sooner.
    while BLOCK <= s.len() - i {
        let w = s[i + BLOCK - 1];
        if s[i + BLOCK / 2] != w {
            return i;
        }
        if !is_white(classes, w) {
            return i;
        }
        let end = tried_to(s, i + BLOCK, w);
        let j = blocks_of(&s[..end], i, |b| b == w);
        if j <= i {
            return i;
        }
        i = j;
    }
    i
}

// The place behind the white space from at on. A long run is mostly one byte again and again, or of a few in turn, which goes by blocks of any white bytes
// behind so many that the table told.
#[inline(never)]
fn white_run(classes: &[u8], s: &[u8], at: usize) -> usize
    requires classes { Classes classes.now }
    requires at_in_bounds { at ≤ length s.now }
    ensures { Scanned is_white s.now at result }
{
    let i = white_blocks(classes, s, at);
    short_run(s, i, BLOCK, |b| is_white(classes, b), compares_white)
}

// The same of any: mostly there is one byte or none. Two are told where it is called.
#[inline(always)]
pub fn skip_white(classes: &[u8], s: &[u8], at: usize) -> usize
    requires classes { Classes classes.now }
    requires at_in_bounds { at ≤ length s.now }
    ensures { Scanned is_white s.now at result }
{
    if s.len() <= at || !is_white(classes, s[at]) {
        return at;
    }
    let i = at + 1;
    if s.len() <= i || !is_white(classes, s[i]) {
        return i;
    }
    white_run(classes, s, i + 1)
}

// The place behind the tag bytes from at on.
pub fn name_run(classes: &[u8], s: &[u8], at: usize) -> usize
    requires classes { Classes classes.now }
    requires at_in_bounds { at ≤ length s.now }
    ensures { Scanned is_tag_byte s.now at result }
{
    short_run(s, at, 32, |b| is_tag_byte(classes, b), compares_tag_byte)
}

// A place within a block up to which the bytes from at on are bare.
pub fn bare_run(classes: &[u8], s: &[u8], at: usize) -> usize
    requires classes { Classes classes.now }
    requires at_in_bounds { at ≤ length s.now }
    ensures { Runs is_bare s.now at result }
{
    let end = at + BLOCK.min(s.len() - at);
    at + run_len(&s[at..end], |b| is_bare(classes, b))
}

// The place behind the bytes from at on that may stand between two quotes q.
pub fn value_run(s: &[u8], at: usize, q: u8) -> usize
    requires { at ≤ length s.now }
    ensures { Scanned (in_value q) s.now at result }
{
    run_of(s, at, |b| in_value(q, b))
}

// A place up to which there are bytes of values from at on: blocks of them.
pub fn printable_blocks(s: &[u8], at: usize) -> usize
    requires { at ≤ length s.now }
    ensures { Runs is_value_byte s.now at result }
{
    blocks_of(s, at, is_value_byte)
}

// The place behind the byte q at at, if it stands there.
pub fn after_byte(s: &[u8], at: usize, q: u8) -> Option<usize>
    requires { at ≤ length s.now }
    ensures { Behind s.now at result (strip (q ∷ []) (drop at s.now)) }
{
    if at < s.len() && s[at] == q {
        return Some(at + 1);
    }
    None
}

// Whether every & of a written value begins one of the five entities. A long value mostly has none, and then goes by blocks.
pub fn escapes_fine(s: &[u8]) -> bool
    ensures { result ≡ is_some (decode s.now) }
{
    // Counted by hand: an entity moves the place by its length. Not by `piece_at`: compiled, that is a call for each byte, and entities take 1.6 times as long.
    let mut i = blocks_of(s, 0, |b| b != b'&');
    while i < s.len() {
        if s[i] != b'&' {
            i += 1;
        } else {
            let Some((_, k)) = entity_at(s, i) else {
                return false;
            };
            i += k;
        }
    }
    true
}
