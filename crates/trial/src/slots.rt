// What was saved of an image's buffers. A slot that nothing was saved in holds no numbers and no bytes.
use crate::fault::Fault;

pub const SLOTS: usize = 4;

// The most of both buffers: more than an image's length, so that other lengths are tried too.
pub const NUMBERS_MOST: usize = 6500;

pub const BYTES_MOST: usize = 55000;

// The slots lie one behind the other in the rooms, each with the most of both.
#[derive(Drop)]
pub struct Slots<'a> {
    numbers: &'a mut [u32],
    bytes: &'a mut [u8],
    counts: [(usize, usize); SLOTS],
}

// Copies elements into a room, from a place on.
pub fn copy_at<T: Copy>(room: &mut [T], at: usize, from: &[T]) -> Result<(), Fault> {
    let behind = room.get_mut(at..).ok_or(Fault::Line)?;
    let front = behind.get_mut(..from.len()).ok_or(Fault::Line)?;
    front.copy_from_slice(from);
    Ok(())
}

// So many elements of a room, from a place on.
fn part_at<T>(room: &[T], at: usize, count: usize) -> Result<&[T], Fault> {
    let behind = room.get(at..).ok_or(Fault::Line)?;
    behind.get(..count).ok_or(Fault::Line)
}

impl<'a> Slots<'a> {
    pub fn over(numbers: &'a mut [u32], bytes: &'a mut [u8]) -> Slots<'a> {
        let counts = [(0, 0); SLOTS];
        Slots {
            numbers,
            bytes,
            counts,
        }
    }

    pub fn put(&mut self, slot: usize, numbers: &[u32], bytes: &[u8]) -> Result<(), Fault> {
        if slot >= SLOTS {
            return Err(Fault::Line);
        }
        self.counts[slot] = (numbers.len(), bytes.len());
        copy_at(self.numbers, slot * NUMBERS_MOST, numbers)?;
        copy_at(self.bytes, slot * BYTES_MOST, bytes)
    }

    pub fn get(&self, slot: usize) -> Result<(&[u32], &[u8]), Fault> {
        if slot >= SLOTS {
            return Err(Fault::Line);
        }
        let (number_count, byte_count) = self.counts[slot];
        let numbers = part_at(self.numbers, slot * NUMBERS_MOST, number_count)?;
        let bytes = part_at(self.bytes, slot * BYTES_MOST, byte_count)?;
        Ok((numbers, bytes))
    }
}
