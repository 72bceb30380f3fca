// A run of the lines of a call file, and carrying out one.
use crate::fault::Fault;
use crate::fields::Fields;
use crate::image::Image;
use crate::slots::{Slots, copy_at};

// The longest name, study or date that is lent: more than any is allowed to have.
const NAME_MOST: usize = 128;

#[derive(Drop)]
pub struct Run<'a> {
    image: Image<'a>,
    slots: Slots<'a>,
    // The room for a file or an output.
    room: &'a mut [u8],
    // The room for the last accepted snapshot, and its length.
    kept: &'a mut [u8],
    kept_count: usize,
}

impl<'a> Run<'a> {
    // Begins with nothing kept.
    pub fn over(
        image: Image<'a>,
        slots: Slots<'a>,
        room: &'a mut [u8],
        kept: &'a mut [u8],
    ) -> Run<'a> {
        let kept_count = 0;
        Run {
            image,
            slots,
            room,
            kept,
            kept_count,
        }
    }

    // Open of the two texts that are the next fields.
    fn open(&mut self, rt: &impl Print, fields: &mut Fields) -> Result<(), Fault> {
        let mut study = [0u8; NAME_MOST];
        let mut version = [0u8; NAME_MOST];
        let study = fields.text(&mut study)?;
        let version = fields.text(&mut version)?;
        self.image.open(rt, study, version)
    }

    // Import of the text that is the next field.
    fn import(&mut self, rt: &impl Print, fields: &mut Fields) -> Result<(), Fault> {
        let file = fields.text(self.room)?;
        self.image.import(rt, file)
    }

    // Import of the last accepted snapshot.
    fn reimport(&mut self, rt: &impl Print) -> Result<(), Fault> {
        let count = self.kept_count;
        // Lent as `&mut`, since the check does not cover a `&` of one field beside a `&mut` of another.
        let file = self.kept.get_mut(..count).ok_or(Fault::Line)?;
        self.image.import(rt, file)
    }

    // Withdraw of the text that is the next field.
    fn withdraw(&mut self, rt: &impl Print, fields: &mut Fields) -> Result<(), Fault> {
        let mut file_oid = [0u8; NAME_MOST];
        let file_oid = fields.text(&mut file_oid)?;
        self.image.withdraw(rt, file_oid)
    }

    // Snapshot into a filled output, with the texts and the output's length that are the next fields. An accepted one is kept.
    fn snapshot(&mut self, rt: &impl Print, fields: &mut Fields) -> Result<(), Fault> {
        let mut file_oid = [0u8; NAME_MOST];
        let mut date = [0u8; NAME_MOST];
        let file_oid = fields.text(&mut file_oid)?;
        let date = fields.text(&mut date)?;
        let length = fields.number()?;
        let output = self.room.get_mut(..length).ok_or(Fault::Line)?;
        output.fill(170);
        let answer = self.image.snapshot(rt, file_oid, date, output)?;
        if answer.refusal == 0 {
            let count = answer.count as usize;
            let text = output.get(..count).ok_or(Fault::Line)?;
            copy_at(self.kept, 0, text)?;
            self.kept_count = count;
        }
        Ok(())
    }

    // Carries out a line that says something. It may end with the byte that ends it.
    pub fn line(&mut self, rt: &impl Print, line: &[u8]) -> Result<(), Fault> {
        let mut fields = Fields::of(line);
        match fields.word() {
            b"numbers" => self.image.zero_numbers(fields.number()?),
            b"bytes" => self.image.zero_bytes(fields.number()?),
            b"pokeN" => self.image.poke_number(fields.number()?, fields.number()?),
            b"pokeB" => self.image.poke_byte(fields.number()?, fields.number()?),
            b"save" => self.image.save(&mut self.slots, fields.number()?),
            b"load" => self.image.load(&self.slots, fields.number()?),
            b"open" => self.open(rt, &mut fields),
            b"import" => self.import(rt, &mut fields),
            b"reimport" => self.reimport(rt),
            b"withdraw" => self.withdraw(rt, &mut fields),
            b"snapshot" => self.snapshot(rt, &mut fields),
            _ => Err(Fault::Line),
        }
    }
}
