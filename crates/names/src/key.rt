ghost use Rattle.std.specs.Prelude.{◌≡◌, false, true, [], ◌∷◌, ◌+◌, ◌-◌, ◌*◌, ◌≤◌, ◌<◌, min, leb, length, take, drop, set, replicate};
ghost use Rattle.names.specs.Name.{name_most};
ghost use Rattle.names.specs.code.HeldKey.{key_of, held_from, eight, packed_most, name_slot, slotted, Packs, WholeName, KeyReadAt};
ghost use Rattle.names.specs.Key.{names_used, key_order, covers, names_in, packed};
ghost use Rattle.names.specs.code.KeyParts.{first_name, past_name, PassedIn, Differing, OrderTold};
ghost use Rattle.names.specs.code.KeyWhole.{IsWhole, WholeKey, NamesTake};
ghost use Rattle.names.specs.Overwrite.{overwrite};
ghost use Rattle.names.specs.code.Wrote.{Wrote};

use crate::bytes::{alike_on, bytes_order, eight_at, put_bytes, same_bytes};
use crate::name::NAME_MOST;
use std::cmp::Ordering;

// A key: its depth, and eight names of 16 bytes each with their lengths; document 01 names this form. Those beyond its depth and absent repeat keys have length 0.
#[derive(Clone, Copy)]
pub struct Key {
    pub depth: u8,
    pub names: [u8; 128],
    pub lens: [u8; 8],
}

// Names that were passed: how many, and the bytes that they take.
#[derive(Clone, Copy)]
struct Passed {
    count: usize,
    size: usize,
}

// How many names a key of the depth uses: one, then two for each depth, and one for the last. Counted, so that no jump hangs on the depth.
pub fn names_used(depth: u8) -> usize
    ensures { (result ≡ names_used depth) × (result ≤ 8) }
{
    match depth as usize {
        d @ 1..=5 => 2 * d - 1 - d / 5,
        _ => 0,
    }
}

impl Key {
    // The key of no entity, above every subject's.
    pub fn made() -> Key
        ensures { (result.depth ≡ 0) × (eight result ≡ replicate 8 []) }
    {
        Key {
            depth: 0,
            names: [0; 128],
            lens: [0; 8],
        }
    }
}

// The first of the packed names that stand in s, and what follows it. Where the text ends early, what there is of it.
fn split_name(s: &[u8]) -> (&[u8], &[u8])
    ensures { (result.0.now ≡ first_name s.now) × (result.1.now ≡ past_name s.now) }
{
    match s.split_first() {
        Some((len, rest)) => rest.split_at((*len as usize).min(rest.len())),
        None => (&[], &[]),
    }
}

// Passes packed names that stand alike from p in a and from q in b, no more than `most`. Keys that are compared mostly begin alike, so
// this is where the time goes.
fn alike_names(a: &[u8], p: usize, b: &[u8], q: usize, most: usize) -> Passed
    requires { (p ≤ length a.now) × (q ≤ length b.now) }
    ensures { PassedIn a.now p b.now q most result }
{
    let mut t = 0;
    let mut size = 0;
    for count in 0..most {
        t = alike_on(a, p, b, q, t, size + 1);
        if t <= size {
            return Passed { count, size };
        }
        let e = size + 1 + (a[p + size] as usize);
        t = alike_on(a, p, b, q, t, e);
        if t < e {
            return Passed { count, size };
        }
        size = e;
    }
    Passed { count: most, size }
}

// The order of the key of m packed names in x and the key of n in y, name by name.
fn packed_order(mut x: &[u8], m: usize, mut y: &[u8], n: usize) -> Ordering
    ensures { result ≡ key_order (names_in m x.entry.now) (names_in n y.entry.now) }
{
    for _k in 0..m.min(n) {
        let (v, x_rest) = split_name(x);
        let (w, y_rest) = split_name(y);
        let o = bytes_order(v, w);
        if o.is_ne() {
            return o;
        }
        x = x_rest;
        y = y_rest;
    }
    m.cmp(&n)
}

// The bytes that the first n packed names from p on take.
pub fn packed_size(s: &[u8], p: usize, n: usize) -> usize
    requires { p ≤ length s.now }
    ensures { NamesTake s.now p n result }
{
    let mut rest = &s[p..];
    for _k in 0..n {
        rest = split_name(rest).1;
    }
    s.len() - p - rest.len()
}

// How many of y's bytes stand alike in x, where so many are known to, byte by byte.
fn byte_difference(x: &[u8], y: &[u8], from: usize) -> usize
    requires { (length y.now ≤ length x.now) × (take from x.now ≡ take from y.now) }
    ensures { Differing x.now y.now result }
{
    for t in from..y.len() {
        if x[t] != y[t] {
            return t;
        }
    }
    y.len()
}

// The same from the first byte on: by eights while there are so many, then by y's last eight.
fn first_difference(x: &[u8], y: &[u8]) -> usize
    requires { length y.now ≤ length x.now }
    ensures { Differing x.now y.now result }
{
    let n = y.len();
    let mut t = 0;
    // Counted by hand: where the eights stop standing alike, the bytes go on.
    while 8 <= n - t && eight_at(x, t) == eight_at(y, t) {
        t += 8;
    }
    if n - t < 8 && 8 <= n && eight_at(x, n - 8) == eight_at(y, n - 8) {
        return n;
    }
    byte_difference(x, y, t)
}

// A key that stands whole: its bytes, and how many names they are.
#[derive(Clone, Copy)]
struct Whole<'a> {
    bytes: &'a [u8],
    count: usize,
    ghost whole: { IsWhole bytes.now count },
}

impl<'a> Whole<'a> {
    // The bytes that its first m names take; all of them, if it has no more.
    fn front_size(self, m: usize) -> usize
        ensures { result ≡ length (packed (take m (names_in self.entry.count self.entry.bytes.now))) }
    {
        if self.count <= m {
            self.bytes.len()
        } else {
            packed_size(self.bytes, 0, m)
        }
    }

    // Whether its first m names end among its first t bytes. Most keys part in their first name, which is told at once.
    fn ends_before(self, m: usize, t: usize) -> bool
        requires { t < length self.bytes.now }
        ensures { result ≡ leb (length (packed (take m (names_in self.entry.count self.entry.bytes.now)))) t }
    {
        (m == 0 || (self.bytes[0] as usize) < t) && self.front_size(m) <= t
    }
}

// The order of the key of m packed names in x and the whole key y, by the place where their bytes first differ. A length byte is at most 16 and a name's
// bytes are above it, so that the byte there tells whether names of different lengths or texts of one length are to be compared. None where the bytes do
// not tell it, as where x ends early.
fn compare_bytes(x: &[u8], m: usize, y: Whole) -> Option<Ordering>
    ensures { OrderTold result (key_order (names_in m x.now) (names_in y.entry.count y.entry.bytes.now)) }
{
    let w = y.bytes;
    if x.len() < w.len() {
        return None;
    }
    let t = first_difference(x, w);
    if w.len() <= t {
        return Some(m.cmp(&y.count));
    }
    if y.ends_before(m, t) {
        return Some(Ordering::Less);
    }
    if 16 < w[t] {
        return Some(x[t].cmp(&w[t]));
    }
    match bytes_order(split_name(&x[t..]).0, split_name(&w[t..]).0) {
        Ordering::Equal => None,
        o => Some(o),
    }
}

// The order of the key of m packed names at p in a and the whole key of n at q in b. Name by name only where their bytes do not tell it, and that in
// one place, so that the longer way is compiled into it.
pub fn key_order(
    a: &[u8],
    p: usize,
    m: usize,
    b: &[u8],
    q: usize,
    n: usize,
    size: usize,
) -> Ordering
    requires p_in_bounds { p ≤ length a.now }
    requires whole_key { WholeKey b.now q n size }
    ensures { result ≡ key_order (names_in m (drop p a.now)) (names_in n (drop q b.now)) }
{
    let x = &a[p..];
    let y = &b[q..q + size];
    match compare_bytes(x, m, Whole { bytes: y, count: n }) {
        Some(o) => o,
        None => packed_order(x, m, y, n),
    }
}

// Whether the key of m packed names at p in a is that of n at q in b or an ancestor's.
pub fn packed_covers(a: &[u8], p: usize, m: usize, b: &[u8], q: usize, n: usize) -> bool
    requires { (p ≤ length a.now) × (q ≤ length b.now) }
    ensures { result ≡ covers (names_in m (drop p a.now)) (names_in n (drop q b.now)) }
{
    if n < m {
        return false;
    }
    let d = alike_names(a, p, b, q, m);
    let mut x = &a[p + d.size..];
    let mut y = &b[q + d.size..];
    for _k in d.count..m {
        let (v, x_rest) = split_name(x);
        let (w, y_rest) = split_name(y);
        if !same_bytes(v, w) {
            return false;
        }
        x = x_rest;
        y = y_rest;
    }
    true
}

// The length of a held name: no more than its slot.
fn held_length(len: u8) -> usize
    ensures { result ≡ min len name_most }
{
    (len as usize).min(NAME_MOST)
}

// The end of a name that stands from a up to e, as far as a slot holds it.
pub fn slot_end(a: usize, e: usize) -> usize
    requires { a ≤ e }
    ensures { result ≡ a + min (e - a) name_most }
{
    a + (e - a).min(NAME_MOST)
}

// Puts a name into slot i of a key's names; there are eight.
pub fn put_slot(names: &mut [u8], i: usize, name: &[u8])
    requires { (length names.old ≡ 128) × (length name.now ≤ name_most) }
    ensures { names.new ≡ slotted names.old i name.now }
{
    if i < 8 {
        put_bytes(names, NAME_MOST * i, name);
    }
}

// Its length likewise.
pub fn put_length(lens: &mut [u8], i: usize, l: u8)
    requires { length lens.old ≡ 8 }
    ensures { lens.new ≡ set lens.old i l }
{
    if i < 8 {
        lens[i] = l;
    }
}

// Writes the 16 bytes of slot i into out from at on.
fn copy_slot(out: &mut [u8], at: usize, names: &[u8], i: usize)
    requires { (i < 8) × (at + name_most ≤ length out.old) × (length names.now ≡ 128) }
    ensures { out.new ≡ overwrite out.old at (name_slot names.now i) }
{
    let a = NAME_MOST * i;
    put_bytes(out, at, &names[a..a + NAME_MOST]);
}

// Writes the first n names of a key to the front of out, packed, and returns the place behind them. Behind it out holds anything: names are moved by whole
// slots.
pub fn pack_names(names: &[u8], lens: &[u8], n: usize, out: &mut [u8]) -> usize
    requires names_len { (length names.now ≡ 128) × (length lens.now ≡ 8) }
    requires n_bound { (n ≤ 8) × (packed_most + name_most ≤ length out.old) }
    ensures { Packs (held_from n 0 names.now lens.now) out.old out.new result }
{
    let mut e = 0;
    for i in 0..n {
        let l = held_length(lens[i]);
        out[e] = l as u8;
        copy_slot(out, e + 1, names, i);
        e += 1 + l;
    }
    e
}

// The place behind the packed name at e, where it is whole and of at most 16 bytes.
fn whole_name(s: &[u8], e: usize) -> Option<usize>
    requires { e ≤ length s.now }
    ensures { WholeName s.now e result }
{
    let l = *s.get(e)? as usize;
    let t = e + 1;
    if NAME_MOST < l || s.len() - t < l {
        return None;
    }
    Some(t + l)
}

// Reads a key of the depth from packed names at `at`, each whole and of at most 16 bytes, and the place behind them; none where they are not so.
pub fn read_key(s: &[u8], at: usize, depth: u8) -> Option<(Key, usize)>
    requires { at ≤ length s.now }
    ensures { KeyReadAt s.now at depth result }
{
    let mut names = [0; 128];
    let mut lens = [0; 8];
    let mut e = at;
    for i in 0..names_used(depth) {
        let b = whole_name(s, e)?;
        let t = e + 1;
        put_bytes(&mut names, NAME_MOST * i, &s[t..b]);
        lens[i] = (b - t) as u8;
        e = b;
    }
    Some((Key { depth, names, lens }, e))
}
