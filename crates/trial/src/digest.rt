// FNV-1a digests of 64 bits.

// The digest of no bytes.
const START: u64 = 0xcbf29ce484222325;

const PRIME: u64 = 0x100000001b3;

// The digest with one more byte.
fn with_byte(digest: u64, byte: u8) -> u64 {
    (digest ^ u64::from(byte)).wrapping_mul(PRIME)
}

// The digest of bytes.
pub fn of_bytes(bytes: &[u8]) -> u64 {
    bytes.iter().copied().fold(START, with_byte)
}

// The digest of numbers, four bytes each, the lowest first.
pub fn of_numbers(numbers: &[u32]) -> u64 {
    numbers
        .iter()
        .flat_map(|number| number.to_le_bytes())
        .fold(START, with_byte)
}
