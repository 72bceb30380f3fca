// The two buffers that are lent to the calls. Each call prints what came of it.
use crate::digest::{of_bytes, of_numbers};
use crate::fault::Fault;
use crate::slots::{Slots, copy_at};
use snapshot::calls::{odm_import, odm_open, odm_snapshot, odm_withdraw};
use std::io;
use store::answer::Answer;

// Each buffer is at the front of a room that is as long as the buffer may become.
#[derive(Drop)]
pub struct Image<'a> {
    numbers: &'a mut [u32],
    number_count: usize,
    bytes: &'a mut [u8],
    byte_count: usize,
}

impl<'a> Image<'a> {
    // So many elements of both rooms.
    pub fn over(
        numbers: &'a mut [u32],
        number_count: usize,
        bytes: &'a mut [u8],
        byte_count: usize,
    ) -> Image<'a> {
        Image {
            numbers,
            number_count,
            bytes,
            byte_count,
        }
    }

    // Makes the numbers buffer as many zeros. Written for each buffer, since `fill` asks of a type parameter that its clone cannot fail.
    pub fn zero_numbers(&mut self, count: usize) -> Result<(), Fault> {
        let numbers = self.numbers.get_mut(..count).ok_or(Fault::Line)?;
        numbers.fill(0);
        self.number_count = count;
        Ok(())
    }

    // Makes the bytes buffer as many zeros.
    pub fn zero_bytes(&mut self, count: usize) -> Result<(), Fault> {
        let bytes = self.bytes.get_mut(..count).ok_or(Fault::Line)?;
        bytes.fill(0);
        self.byte_count = count;
        Ok(())
    }

    // Changes one number.
    pub fn poke_number(&mut self, at: usize, value: usize) -> Result<(), Fault> {
        let numbers = self.numbers.get_mut(..self.number_count);
        poke(numbers.ok_or(Fault::Line)?, at, value)
    }

    // Changes one byte.
    pub fn poke_byte(&mut self, at: usize, value: usize) -> Result<(), Fault> {
        let bytes = self.bytes.get_mut(..self.byte_count);
        poke(bytes.ok_or(Fault::Line)?, at, value)
    }

    // Copies both buffers into a slot.
    pub fn save(&self, slots: &mut Slots, slot: usize) -> Result<(), Fault> {
        let numbers = self.numbers.get(..self.number_count).ok_or(Fault::Line)?;
        let bytes = self.bytes.get(..self.byte_count).ok_or(Fault::Line)?;
        slots.put(slot, numbers, bytes)
    }

    // Copies both buffers from a slot.
    pub fn load(&mut self, slots: &Slots, slot: usize) -> Result<(), Fault> {
        let (numbers, bytes) = slots.get(slot)?;
        copy_at(self.numbers, 0, numbers)?;
        copy_at(self.bytes, 0, bytes)?;
        self.number_count = numbers.len();
        self.byte_count = bytes.len();
        Ok(())
    }

    // Prints a line of what came of a call.
    fn say_line(&self, rt: &impl Print, name: &str, answer: Answer) -> Result<(), Fault> {
        let numbers = self.numbers.get(..self.number_count).ok_or(Fault::Line)?;
        let bytes = self.bytes.get(..self.byte_count).ok_or(Fault::Line)?;
        say(rt, name, answer, numbers, bytes)?;
        println!(rt)?;
        Ok(())
    }

    // Open.
    pub fn open(&mut self, rt: &impl Print, study: &[u8], version: &[u8]) -> Result<(), Fault> {
        let numbers = self
            .numbers
            .get_mut(..self.number_count)
            .ok_or(Fault::Line)?;
        let bytes = self.bytes.get_mut(..self.byte_count).ok_or(Fault::Line)?;
        let answer = odm_open(numbers, bytes, study, version);
        self.say_line(rt, "open", answer)
    }

    // Import.
    pub fn import(&mut self, rt: &impl Print, file: &[u8]) -> Result<(), Fault> {
        let numbers = self
            .numbers
            .get_mut(..self.number_count)
            .ok_or(Fault::Line)?;
        let bytes = self.bytes.get_mut(..self.byte_count).ok_or(Fault::Line)?;
        let answer = odm_import(numbers, bytes, file);
        self.say_line(rt, "import", answer)
    }

    // Withdraw.
    pub fn withdraw(&mut self, rt: &impl Print, file_oid: &[u8]) -> Result<(), Fault> {
        let numbers = self
            .numbers
            .get_mut(..self.number_count)
            .ok_or(Fault::Line)?;
        let bytes = self.bytes.get_mut(..self.byte_count).ok_or(Fault::Line)?;
        let answer = odm_withdraw(numbers, bytes, file_oid);
        self.say_line(rt, "withdraw", answer)
    }

    // Snapshot, whose line ends with the output's digest.
    pub fn snapshot(
        &self,
        rt: &impl Print,
        file_oid: &[u8],
        date: &[u8],
        output: &mut [u8],
    ) -> Result<Answer, Fault> {
        let numbers = self.numbers.get(..self.number_count).ok_or(Fault::Line)?;
        let bytes = self.bytes.get(..self.byte_count).ok_or(Fault::Line)?;
        let answer = odm_snapshot(numbers, bytes, file_oid, date, output);
        say(rt, "snapshot", answer, numbers, bytes)?;
        println!(rt; " {:016x}", of_bytes(output))?;
        Ok(answer)
    }
}

// Prints a call's name, its refusal and count, and the digests of both buffers.
fn say(
    rt: &impl Print,
    name: &str,
    answer: Answer,
    numbers: &[u32],
    bytes: &[u8],
) -> io::Result<()> {
    let numbers = of_numbers(numbers);
    let bytes = of_bytes(bytes);
    print!(rt;
        "{name} {} {} {numbers:016x} {bytes:016x}",
        answer.refusal, answer.count
    )
}

// Changes one element, to a value that fits.
fn poke<T: TryFrom<usize> + Drop>(elements: &mut [T], at: usize, value: usize) -> Result<(), Fault>
where
    T::Error: Drop,
{
    let value = T::try_from(value).map_err(|_| Fault::Line)?;
    *elements.get_mut(at).ok_or(Fault::Line)? = value;
    Ok(())
}
