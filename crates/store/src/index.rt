ghost use Rattle.std.specs.Prelude.{◌≡◌, ◌+◌, ◌-◌, ◌≤◌, ◌<◌, length, take, drop, get_or};
ghost use Rattle.names.specs.Key.{key_order, covers, names_in};
ghost use Rattle.names.specs.code.KeyWhole.{WholeKey};
ghost use Rattle.store.specs.Image.{numbers_size, bytes_size};
ghost use Rattle.store.specs.code.Index.{position_in, covered_run, inserted, removed, table_at, Indexed};
ghost use Rattle.store.specs.Machine.{changes_most};
ghost use Rattle.store.specs.code.Rows.{key_at};

use crate::rows::row_key;
use names::key::{key_order, packed_covers};
use std::cmp::Ordering;

// The image, the index and the key stand alone in each list of parameters: what `find`, `run_end` and the other pub functions take may be no narrower.

// The order of the key at place m of the index and the whole key of k packed names at p.
fn row_order(
    numbers: &[u32],
    bytes: &[u8],
    c: usize,
    index: &[u32],
    n: usize,
    m: usize,
    key: &[u8],
    p: usize,
    k: usize,
    size: usize,
) -> Ordering
    requires numbers_len { (length numbers.now ≡ numbers_size) × (length bytes.now ≡ bytes_size) × (c ≤ changes_most) × (p ≤ length key.now) × (m < n) }
    requires indexed { Indexed numbers.now bytes.now c index.now n }
    requires whole_key { WholeKey key.now p k size }
    ensures { result ≡ key_order (key_at numbers.now bytes.now (get_or index.now m 0)) (names_in k (drop p key.now)) }
{
    let (at, count) = row_key(numbers, bytes, index[m] as usize);
    key_order(bytes, at, count, key, p, k, size)
}

// Whether the key of k packed names at p covers the key at place m of the index.
pub fn entry_covered(
    numbers: &[u32],
    bytes: &[u8],
    c: usize,
    index: &[u32],
    n: usize,
    m: usize,
    key: &[u8],
    p: usize,
    k: usize,
) -> bool
    requires numbers_len { (length numbers.now ≡ numbers_size) × (length bytes.now ≡ bytes_size) × (c ≤ changes_most) × (p ≤ length key.now) × (m < n) }
    requires indexed { Indexed numbers.now bytes.now c index.now n }
    ensures { result ≡ covers (names_in k (drop p key.now)) (key_at numbers.now bytes.now (get_or index.now m 0)) }
{
    let (at, count) = row_key(numbers, bytes, index[m] as usize);
    packed_covers(key, p, k, bytes, at, count)
}

// Which place is compared next: the finger first, then the one before it, since that is the common case; then always the middle.
#[derive(Clone, Copy)]
enum Probe {
    Finger(usize),
    Last,
    Middle,
}

impl Probe {
    // The first one in an index of n. A finger behind it is none.
    fn first(finger: usize, n: usize) -> Probe {
        if finger <= n {
            Probe::Finger(finger)
        } else {
            Probe::Middle
        }
    }

    // The next one, where the key comes before this place.
    fn before(self) -> Probe {
        match self {
            Probe::Finger(_) => Probe::Last,
            Probe::Last | Probe::Middle => Probe::Middle,
        }
    }

    // The place that is meant, from lo on and before hi.
    fn place(self, lo: usize, hi: usize) -> usize
        requires { lo < hi }
        ensures { (lo ≤ result) × (result < hi) }
    {
        match self {
            Probe::Finger(place) => place.clamp(lo, hi - 1),
            Probe::Last => hi - 1,
            Probe::Middle => lo + (hi - lo) / 2,
        }
    }
}

// Where the key of k packed names at p, which takes `size` bytes, stands in the first n of the index, or else belongs, as a binary search answers. Changes
// come in document order, so the place behind the last one is nearly always right: the finger, which is tried first.
pub fn find(
    numbers: &[u32],
    bytes: &[u8],
    c: usize,
    index: &[u32],
    n: usize,
    finger: usize,
    key: &[u8],
    p: usize,
    k: usize,
    size: usize,
) -> Result<usize, usize>
    requires numbers_len { (length numbers.now ≡ numbers_size) × (length bytes.now ≡ bytes_size) × (c ≤ changes_most) × (p ≤ length key.now) }
    requires indexed { Indexed numbers.now bytes.now c index.now n }
    requires whole_key { WholeKey key.now p k size }
    ensures { result ≡ position_in (names_in k (drop p key.now)) (table_at numbers.now bytes.now index.now n) }
{
    let mut lo = 0;
    let mut hi = n;
    let mut probe = Probe::first(finger, n);
    // By while: a comparison moves one of two bounds, which no iterator does.
    while lo < hi {
        let m = probe.place(lo, hi);
        match row_order(numbers, bytes, c, index, n, m, key, p, k, size) {
            Ordering::Less => {
                lo = m + 1;
                probe = Probe::Middle;
            }
            Ordering::Equal => return Ok(m),
            Ordering::Greater => {
                hi = m;
                probe = probe.before();
            }
        }
    }
    Err(lo)
}

// The end of the run of entities from place f on that the key covers.
pub fn run_end(
    numbers: &[u32],
    bytes: &[u8],
    c: usize,
    index: &[u32],
    n: usize,
    f: usize,
    key: &[u8],
    p: usize,
    k: usize,
) -> usize
    requires numbers_len { (length numbers.now ≡ numbers_size) × (length bytes.now ≡ bytes_size) × (c ≤ changes_most) × (p ≤ length key.now) × (f ≤ n) }
    requires indexed { Indexed numbers.now bytes.now c index.now n }
    ensures { (f ≤ result) × (result ≤ n) × (result ≡ f + covered_run (names_in k (drop p key.now)) (drop f (table_at numbers.now bytes.now index.now n))) }
{
    for q in f..n {
        if !entry_covered(numbers, bytes, c, index, n, q, key, p, k) {
            return q;
        }
    }
    n
}

// Puts r in at place p of the first n.
pub fn insert(index: &mut [u32], n: usize, p: usize, r: u32)
    requires { (p ≤ n) × (n < length index.old) }
    ensures { take (n + 1) index.new ≡ inserted (take n index.old) p r }
{
    index.copy_within(p..n, p + 1);
    index[p] = r;
}

// Takes those from p to q out of the first n.
pub fn remove(index: &mut [u32], n: usize, p: usize, q: usize)
    requires { (p ≤ q) × (q ≤ n) × (n ≤ length index.old) }
    ensures { take (n - (q - p)) index.new ≡ removed (take n index.old) p q }
{
    index.copy_within(q..n, p);
}
