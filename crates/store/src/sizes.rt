ghost use Rattle.std.specs.Prelude.{◌≡◌, length, IfOk};
ghost use Rattle.store.specs.Answer.{unless};
ghost use Rattle.store.specs.Calls.{right_lengths};
ghost use Rattle.store.specs.Image.{numbers_size, bytes_size};
ghost use Rattle.store.specs.Outcomes.{buffers};
ghost use Rattle.store.specs.code.Refusals.{said};

use crate::answer::Refusal;
use names::date::DATE_SIZE;
use names::name::LONG_NAME_MOST;

// The sizes of the buffers and of their parts, each width once.
pub const FILES_MOST: usize = 64;

pub const CHANGES_MOST: usize = 2048;

pub const BYTES_MOST: usize = 49152;

pub const CONTENTS_SIZE: usize = 5;

pub const FILE_ROW: usize = 3;

pub const CHANGE_ROW: usize = 3;

pub const FILE_SLOT: usize = LONG_NAME_MOST + DATE_SIZE;

// The columns of a change row: kind, depth, end.
pub const KIND: usize = 0;

pub const DEPTH: usize = 1;

pub const END: usize = 2;

// The columns of a file row: length of the FileOID, changes and bytes through the file.
pub const OID_LENGTH: usize = 0;

pub const THROUGH: usize = 1;

pub const BYTES_THROUGH: usize = 2;

// Where the contents have the counts of files, changes and change bytes, and the lengths of study and version.
pub const FILE_COUNT: usize = 0;

pub const CHANGE_COUNT: usize = 1;

pub const BYTE_COUNT: usize = 2;

pub const STUDY_AT: usize = 3;

pub const VERSION_AT: usize = 4;

// Where change rows, file slots and change bytes begin.
pub const ROWS_AT: usize = CONTENTS_SIZE + FILES_MOST * FILE_ROW;

pub const FILES_AT: usize = LONG_NAME_MOST + LONG_NAME_MOST;

pub const PACKED_AT: usize = FILES_AT + FILES_MOST * FILE_SLOT;

pub const NUMBERS_SIZE: usize = ROWS_AT + CHANGES_MOST * CHANGE_ROW;

pub const BYTES_SIZE: usize = PACKED_AT + BYTES_MOST;

// Whether both buffers have their sizes.
pub fn buffers_sized(numbers: &[u32], bytes: &[u8]) -> Result<(), Refusal>
    ensures says { said result ≡ unless (right_lengths (buffers numbers.now bytes.now)) 1 }
    ensures sized { IfOk result (λ _. (length numbers.now ≡ numbers_size) × (length bytes.now ≡ bytes_size)) }
{
    if numbers.len() == NUMBERS_SIZE && bytes.len() == BYTES_SIZE {
        Ok(())
    } else {
        Err(Refusal::BufferLength)
    }
}
