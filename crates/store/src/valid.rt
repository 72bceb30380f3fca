ghost use Rattle.std.specs.Prelude.{ℕ, ◌≡◌, length};
ghost use Rattle.store.specs.Calls.{opened};
ghost use Rattle.store.specs.Image.{numbers_size, bytes_size};
ghost use Rattle.store.specs.code.Judged.{judged_as, Judged, ValidBy};
ghost use Rattle.store.specs.Machine.{changes_most, live_most};
ghost use Rattle.store.specs.Outcomes.{buffers};

use crate::answer::Refusal;
use crate::layout::laid_out;
use crate::replay::{LIVE_MOST, LiveIndex, replay};
use crate::sizes::{CHANGE_COUNT, CHANGES_MOST};

// Judges a whole image: if it is valid, the index holds its live entities in key order, and the sizes are those of the changes' keys.
pub fn judge_image(
    numbers: &[u32],
    bytes: &[u8],
    index: &mut [u32],
    sizes: &mut [u8],
) -> Result<LiveIndex, Refusal>
    requires { (length numbers.now ≡ numbers_size) × (length bytes.now ≡ bytes_size) × (length index.old ≡ live_most) × (length sizes.old ≡ changes_most) }
    ensures result_value { judged_as (buffers numbers.now bytes.now) result ≡ opened (buffers numbers.now bytes.now) }
    ensures judged { Judged numbers.now bytes.now index.new sizes.new result }
{
    if !laid_out(numbers, bytes, sizes) {
        return Err(Refusal::NotValid);
    }
    let c = numbers[CHANGE_COUNT] as usize;
    replay(numbers, bytes, c, index, sizes).ok_or(Refusal::NotValid)
}

// Whether the image is valid.
pub fn is_valid(numbers: &[u32], bytes: &[u8]) -> bool
    requires { (length numbers.now ≡ numbers_size) × (length bytes.now ≡ bytes_size) }
    ensures { ValidBy numbers.now bytes.now result }
{
    let mut index = [0u32; LIVE_MOST];
    let mut sizes = [0u8; CHANGES_MOST];
    judge_image(numbers, bytes, &mut index, &mut sizes).is_ok()
}
