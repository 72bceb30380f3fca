ghost use Rattle.std.specs.Prelude.{◌≡◌, length, drop, get_or, set, ◌+◌, ◌<◌};
ghost use Rattle.names.specs.Bytes.{ch};
ghost use Rattle.names.specs.Text.{first_of, entities, piece_at, decode};
ghost use Rattle.names.specs.code.Decoding.{piece_of, fitted, decoded_in, DecodesWithin};

// Why a written value is not decoded: it has more bytes than the buffer has room for; or an `&` in it begins no entity.
#[derive(Clone, Copy, Debug, PartialEq, Eq)]
pub enum DecodeError {
    TooLong,
    Broken,
}

// What stands at at: the byte that it stands for, and how many bytes write it; none where a stray `&` does.
pub fn piece_at(s: &[u8], at: usize) -> Option<(u8, usize)>
    requires { at < length s.now }
    ensures { result ≡ piece_of (piece_at (get_or s.now at 0) (drop (at + 1) s.now)) }
{
    match s[at] {
        b'&' => entity_at(s, at),
        c => Some((c, 1)),
    }
}

// The same where an `&` stands. Inlined, since the pair would else go through memory, at twice the time.
#[inline(always)]
#[tactic(auto, using(crate::proofs::Decode::entity_tells))]
pub fn entity_at(s: &[u8], at: usize) -> Option<(u8, usize)>
    requires { (at < length s.now) × (get_or s.now at 0 ≡ ch "&") }
    ensures { result ≡ piece_of (first_of entities (drop at s.now)) }
{
    match &s[at + 1..] {
        // These two apart: of one match for all, the compiler makes a jump by a table, and entities take 1.8 times as long.
        [b'a', b'm', b'p', b';', ..] => Some((b'&', 5)),
        [b'a', b'p', b'o', b's', b';', ..] => Some((b'\'', 6)),
        rest => match rest {
            [b'l', b't', b';', ..] => Some((b'<', 4)),
            [b'g', b't', b';', ..] => Some((b'>', 4)),
            [b'q', b'u', b'o', b't', b';', ..] => Some((b'"', 6)),
            _ => None,
        },
    }
}

// Writes b at n, if out reaches so far.
fn put_byte(out: &mut [u8], n: usize, b: u8)
    ensures { out.new ≡ set out.old n b }
{
    if n < out.len() {
        out[n] = b;
    }
}

// Decodes the written value s into out, from its start on, and returns its length there.
pub fn decode(s: &[u8], out: &mut [u8]) -> Result<usize, DecodeError>
    ensures result_after { decoded_in out.new result ≡ fitted (length out.old) (decode s.now) }
    ensures decodes_within { DecodesWithin (length out.old) result }
{
    let mut i = 0;
    let mut n = 0;
    // Stepped by hand: a piece has one to six bytes, and no iterator takes steps of the length that the last item tells.
    while i < s.len() {
        let (b, k) = piece_at(s, i).ok_or(DecodeError::Broken)?;
        put_byte(out, n, b);
        n += 1;
        i += k;
    }
    if n <= out.len() {
        Ok(n)
    } else {
        Err(DecodeError::TooLong)
    }
}
