ghost use Rattle.std.specs.Prelude.{◌≡◌, eqb, length, get_or, drop, replicate, set, ◌+◌, ◌-◌, ◌*◌, ◌≤◌, ◌<◌};
ghost use Rattle.names.specs.code.KeyParts.{four_at, AlikeFor};
ghost use Rattle.names.specs.Order.{bytes_order, same, begins};
ghost use Rattle.names.specs.Overwrite.{overwrite};
ghost use Rattle.names.specs.code.Wrote.{Wrote};

use std::cmp::Ordering;

// The order of two stretches: the first differing byte decides, a proper prefix comes first.
#[tactic(auto, using(crate::proofs::Stretch::cmp_told))]
pub fn bytes_order(a: &[u8], b: &[u8]) -> Ordering
    ensures { result ≡ bytes_order a.now b.now }
{
    a.cmp(&b)
}

// Whether two stretches are the same.
pub fn same_bytes(a: &[u8], b: &[u8]) -> bool
    ensures { result ≡ same a.now b.now }
{
    a == b
}

// Eight bytes from p on as one number: compiled, one load.
pub fn eight_at(s: &[u8], p: usize) -> u64
    requires { p + 8 ≤ length s.now }
    ensures { result ≡ four_at s.now p + 4294967296 * four_at s.now (p + 4) }
{
    u64::from_le_bytes([
        s[p],
        s[p + 1],
        s[p + 2],
        s[p + 3],
        s[p + 4],
        s[p + 5],
        s[p + 6],
        s[p + 7],
    ])
}

// From the first bytes that stand alike from p in a and from q in b, so many, on: found by eights, up to `to` or a little beyond.
pub fn alike_on(a: &[u8], p: usize, b: &[u8], q: usize, from: usize, to: usize) -> usize
    requires { AlikeFor a.now p b.now q from }
    ensures { AlikeFor a.now p b.now q result }
{
    let mut t = from;
    // Counted by hand: where it stops is the answer.
    while t < to
        && 8 <= a.len() - (p + t)
        && 8 <= b.len() - (q + t)
        && eight_at(a, p + t) == eight_at(b, q + t)
    {
        t += 8;
    }
    t
}

// Whether w stands in s from at on. Its last eight bytes mostly tell; then the others, eight at a time.
// It is written out where it is called: otherwise a large file takes a sixteenth more.
#[inline(always)]
pub fn begins_at(s: &[u8], at: usize, w: &[u8]) -> bool
    requires { at ≤ length s.now }
    ensures { result ≡ begins eqb w.now (drop at s.now) }
{
    if s.len() - at < w.len() {
        return false;
    }
    // Not by `starts_with` alone: a large import takes 4 percent more.
    if 8 <= w.len() {
        let l = w.len() - 8;
        if eight_at(s, at + l) != eight_at(w, l) {
            return false;
        }
        if l <= alike_on(s, at, w, 0, 0, l) {
            return true;
        }
    }
    s[at..].starts_with(w)
}

// Writes s into out from n on, and returns the place behind it. By a loop: `copy_from_slice` compiles to a call of memmove, which the archive for C would
// need from outside, and a snapshot of values that are escaped, short text after short text, runs a tenth more instructions.
pub fn put_bytes(out: &mut [u8], n: usize, s: &[u8]) -> usize
    requires { n + length s.now ≤ length out.old }
    ensures { Wrote out.old n s.now out.new result }
{
    for (i, c) in s.iter().enumerate() {
        out[n + i] = *c;
    }
    n + s.len()
}

// Writes zeros into out from a up to e.
pub fn clear(out: &mut [u8], a: usize, e: usize)
    requires { (a ≤ e) × (e ≤ length out.old) }
    ensures { out.new ≡ overwrite out.old a (replicate (e - a) 0) }
{
    out[a..e].fill(0);
}
