// The fields of a line of a call file: a command's name, a byte text in hex, a decimal number. Each is read from its beginning on.
ghost use Rattle.std.specs.Prelude.{◌<◌, length, IfSome};

use crate::fault::Fault;

// The largest number that is read, 999,999,999,999, without its last digit. A larger one is none.
const TENTH_MOST: usize = 99999999999;

// What is left of a line, with the byte that ends the line, if one does.
#[derive(Drop)]
pub struct Fields<'a> {
    rest: &'a [u8],
}

// The digit at a beginning and what is behind it: a hex digit's value is below 16.
fn digit(text: &[u8]) -> Option<(u8, &[u8])>
    ensures { IfSome result (λ d. (d.0 < 16) × (length d.1.now < length text.now)) }
{
    match text {
        [digit @ b'0'..=b'9', rest @ ..] => Some((*digit - b'0', rest)),
        [digit @ b'a'..=b'f', rest @ ..] => Some((*digit - b'a' + 10, rest)),
        _ => None,
    }
}

// The decimal number at a beginning.
fn number(text: &[u8]) -> Option<usize> {
    let [b'0'..=b'9', ..] = text else { return None };
    let mut number = 0;
    let mut rest = text;
    while let [digit @ b'0'..=b'9', behind @ ..] = rest {
        if number > TENTH_MOST {
            return None;
        }
        number = 10 * number + usize::from(*digit - b'0');
        rest = behind;
    }
    Some(number)
}

// Makes a text of so many bytes as long as a number says, with its last byte again and again.
fn stretch(room: &mut [u8], count: usize, length: usize) -> Result<(), Fault> {
    let more = length.checked_sub(count).ok_or(Fault::Line)?;
    let (text, behind) = room.split_at_mut_checked(count).ok_or(Fault::Line)?;
    let last = *text.last().ok_or(Fault::Line)?;
    behind.get_mut(..more).ok_or(Fault::Line)?.fill(last);
    Ok(())
}

// The length of a byte text of which so many were read, up to where its digits end: it ends there, or `*` and a length follow. A dash
// alone is the empty text.
fn ended(room: &mut [u8], count: usize, rest: &[u8]) -> Result<usize, Fault> {
    match rest {
        [] => Ok(count),
        [b'-', ..] if count == 0 => Ok(count),
        [byte, ..] if *byte <= b' ' && count != 0 => Ok(count),
        [b'*', rest @ ..] => {
            let length = number(rest).ok_or(Fault::Line)?;
            stretch(room, count, length)?;
            Ok(length)
        }
        _ => Err(Fault::Line),
    }
}

// Reads the digits of a byte text at a beginning into a room: how many bytes they stand for, and what is behind them.
fn digits<'a>(line: &'a [u8], room: &mut [u8]) -> Result<(usize, &'a [u8]), Fault> {
    let mut count = 0;
    let mut rest = line;
    while let Some((high, behind)) = digit(rest) {
        let (low, behind) = digit(behind).ok_or(Fault::Line)?;
        *room.get_mut(count).ok_or(Fault::Line)? = 16 * high + low;
        count += 1;
        rest = behind;
    }
    Ok((count, rest))
}

impl<'a> Fields<'a> {
    pub fn of(line: &'a [u8]) -> Fields<'a> {
        Fields { rest: line }
    }

    // The next field: a byte that is at most a blank ends it, and a blank is passed.
    pub fn word(&mut self) -> &'a [u8] {
        let end = self.rest.iter().position(|byte| *byte <= b' ');
        let (word, rest) = self.rest.split_at(end.unwrap_or(self.rest.len()));
        self.rest = rest.strip_prefix(b" ").unwrap_or(rest);
        word
    }

    pub fn number(&mut self) -> Result<usize, Fault> {
        number(self.word()).ok_or(Fault::Line)
    }

    // A byte text, in a room that it must fit.
    pub fn text<'b>(&mut self, room: &'b mut [u8]) -> Result<&'b [u8], Fault> {
        let (count, rest) = digits(self.rest, room)?;
        let length = ended(room, count, rest)?;
        self.rest = rest;
        self.word();
        room.get(..length).ok_or(Fault::Line)
    }
}
