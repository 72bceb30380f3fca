ghost use Rattle.std.specs.Prelude.{◌≡◌, ◌≤◌, length};
ghost use Rattle.names.specs.Name.{long_name_most};
ghost use Rattle.store.specs.Calls.{open_call};
ghost use Rattle.store.specs.Image.{numbers_size, bytes_size, image};
ghost use Rattle.store.specs.Machine.{empty};
ghost use Rattle.store.specs.Outcomes.{outcome_of, buffers};
ghost use Rattle.store.specs.code.Refusals.{answer_of};

use crate::answer::{Answer, Refusal};
use crate::sizes::{BYTES_SIZE, NUMBERS_SIZE, STUDY_AT, VERSION_AT, buffers_sized};
use crate::write::clear_numbers;
use names::bytes::{clear, put_bytes};
use names::name::{LONG_NAME_MOST, is_long_name};

// Writes the empty image.
fn empty_image(numbers: &mut [u32], bytes: &mut [u8], study: &[u8], version: &[u8])
    requires numbers_len { (length numbers.old ≡ numbers_size) × (length bytes.old ≡ bytes_size) }
    requires study_len_bound { (length study.now ≤ long_name_most) × (length version.now ≤ long_name_most) }
    ensures { buffers numbers.new bytes.new ≡ image (empty study.now version.now) }
{
    clear_numbers(numbers, 0, NUMBERS_SIZE);
    numbers[STUDY_AT] = study.len() as u32;
    numbers[VERSION_AT] = version.len() as u32;
    clear(bytes, 0, BYTES_SIZE);
    put_bytes(bytes, 0, study);
    put_bytes(bytes, LONG_NAME_MOST, version);
}

// The same over anything, if the buffers have their sizes and the names are such.
fn open_empty(
    numbers: &mut [u32],
    bytes: &mut [u8],
    study: &[u8],
    version: &[u8],
) -> Result<u32, Refusal>
    ensures { outcome_of (answer_of result) numbers.new bytes.new ≡ open_call (buffers numbers.old bytes.old) study.now version.now }
{
    buffers_sized(numbers, bytes)?;
    if is_long_name(study) && is_long_name(version) {
        empty_image(numbers, bytes, study, version);
        Ok(0)
    } else {
        Err(Refusal::Value)
    }
}

// Writes the empty image over anything.
pub fn open(numbers: &mut [u32], bytes: &mut [u8], study: &[u8], version: &[u8]) -> Answer
    ensures { outcome_of result numbers.new bytes.new ≡ open_call (buffers numbers.old bytes.old) study.now version.now }
{
    Answer::from(open_empty(numbers, bytes, study, version))
}
