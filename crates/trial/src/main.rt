// Runs files of calls, named by the arguments of the command line, and prints a line for each call: its refusal, its count, and digests
// of what it left in the buffers. peer/FORMAT.md says what stands in such a file. Each file begins with buffers of its own.
#![tactic(auto)]

mod digest;
mod fault;
mod fields;
mod image;
mod run;
mod slots;

ghost use Rattle.std.specs.Prelude.{◌<◌, ◌≤◌, IfOk, IfSome, length};

use fault::Fault;
use image::Image;
use run::Run;
use slots::{BYTES_MOST, NUMBERS_MOST, SLOTS, Slots};
use std::env::{Env, FillError};
use std::fs::File;
use std::io;
use std::io::Read;
use std::rt::Files;
use store::sizes::{BYTES_SIZE, NUMBERS_SIZE};

// A file of calls is shorter. The time of the check grows with the array, and millions of bytes are too many for it.
const CALLS_MOST: usize = 400000;

// The longest file that is imported, and the longest output.
const FILE_MOST: usize = 262400;

// The longest name of a file of calls.
const NAME_ROOM: usize = 4096;

// The line at a beginning and what is behind it. A byte of at most a line feed ends a line and is part of it.
fn split_line(text: &[u8]) -> Option<(&[u8], &[u8])>
    ensures { IfSome result (λ l. length l.1.now < length text.now) }
{
    if text.is_empty() {
        return None;
    }
    match text.iter().position(|byte| *byte <= b'\n') {
        Some(end) => Some(text.split_at(end + 1)),
        None => Some((text, &[])),
    }
}

// "Empty lines and lines beginning with `#` say nothing."
fn says_nothing(line: &[u8]) -> bool {
    matches!(line, [b'\n' | b'#', ..])
}

// Carries out each line that says something; one that was not carried out is the last.
fn run_lines(rt: &(impl Print + Eprint), file: &[u8], run: &mut Run) -> io::Result<()> {
    let mut rest = file;
    while let Some((line, behind)) = split_line(rest) {
        rest = behind;
        if says_nothing(line) {
            continue;
        }
        match run.line(rt, line) {
            Ok(()) => {}
            Err(Fault::Outside(error)) => return Err(error),
            Err(Fault::Line) => {
                let _ = eprintln!(rt; "a line cannot be carried out");
                return Ok(());
            }
        }
    }
    Ok(())
}

// Holds the rooms, at first an image's length of zeros. None is on the heap, so no line fails for want of memory.
fn run_file(rt: &(impl Print + Eprint), file: &[u8]) -> io::Result<()> {
    let mut numbers = [0u32; NUMBERS_MOST];
    let mut bytes = [0u8; BYTES_MOST];
    let mut saved_numbers = [0u32; SLOTS * NUMBERS_MOST];
    let mut saved_bytes = [0u8; SLOTS * BYTES_MOST];
    let mut room = [0u8; FILE_MOST];
    let mut kept = [0u8; FILE_MOST];
    let image = Image::over(&mut numbers, NUMBERS_SIZE, &mut bytes, BYTES_SIZE);
    let slots = Slots::over(&mut saved_numbers, &mut saved_bytes);
    let mut run = Run::over(image, slots, &mut room, &mut kept);
    run_lines(rt, file, &mut run)
}

// Fills out from an input as far as that has bytes, and returns how many came.
fn read_full(input: &mut impl Read, out: &mut [u8]) -> io::Result<usize>
    ensures { IfOk result (λ n. n ≤ length out.old) }
{
    let mut n = 0;
    // Counted by hand: no method of std fills a lent slice as far as the input goes and says how far.
    while n < out.len() {
        let count = input.read(&mut out[n..])?;
        if count == 0 {
            return Ok(n);
        }
        n += count;
    }
    Ok(n)
}

// Runs a file of calls that is open, if there is the room for it.
fn run_input(rt: &(impl Print + Eprint), mut input: impl Read + Drop) -> io::Result<()> {
    let mut file = [0u8; CALLS_MOST];
    let count = read_full(&mut input, &mut file)?;
    if count == CALLS_MOST {
        let _ = eprintln!(rt; "a file of calls is too long");
        return Ok(());
    }
    run_file(rt, &file[..count])
}

// Runs the file of calls that has a name.
fn run_named(rt: &(impl Files + Print + Eprint), name: &str) -> io::Result<()> {
    match File::open(rt, name) {
        Ok(input) => run_input(rt, input),
        Err(error) => {
            let _ = eprintln!(rt; "{name}: {error}");
            Ok(())
        }
    }
}

// The same of a name's bytes. A file whose name is no text cannot be opened.
fn run_bytes(rt: &(impl Files + Print + Eprint), name: &[u8]) -> io::Result<()> {
    match str::from_utf8(name) {
        Ok(name) => run_named(rt, name),
        Err(_) => {
            let _ = eprintln!(rt; "the name of a file of calls is no text");
            Ok(())
        }
    }
}

// Each argument of the command line names a file of calls; one that is too long names none.
fn main(rt: HostRuntime) -> io::Result<()> {
    for i in 1..usize::MAX {
        let mut name = [0u8; NAME_ROOM];
        match rt.arg(i, &mut name) {
            Ok(length) => run_bytes(&rt, &name[0..length])?,
            Err(FillError::NotPresent) => return Ok(()),
            Err(FillError::TooLong) => run_named(&rt, "")?,
        }
    }
    Ok(())
}
