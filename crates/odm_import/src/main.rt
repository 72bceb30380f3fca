// Imports standard input into an empty store of study ST, version V1, prints the answer, and if it was accepted the snapshot.
#![tactic(auto)]

ghost use Rattle.std.specs.Prelude.{◌≤◌, IfOk, length};

use snapshot::calls::{odm_import, odm_open, odm_snapshot};
use std::io;
use std::io::Read;
use store::sizes::{BYTES_SIZE, NUMBERS_SIZE};

// The longest file that is imported.
const FILE_ROOM: usize = 65536;

// "`accepted` and the count or `refused` and the number .., one space between, on a line of its own"
fn say(rt: &impl Print, word: &str, number: u32) -> io::Result<()> {
    println!(rt; "{word} {number}")
}

// The snapshot with FileOID S1, "in whose place stands `refused 14`".
fn print_snapshot(rt: &impl Print, numbers: &[u32], bytes: &[u8]) -> io::Result<()> {
    let mut output = [0u8; 65536];
    let answer = odm_snapshot(numbers, bytes, b"S1", b"2014-03-02T09:00:00", &mut output);
    if answer.refusal != 0 {
        return say(rt, "refused", answer.refusal);
    }
    match output.get(..answer.count as usize) {
        Some(text) => rt.write_all(text),
        None => Ok(()),
    }
}

fn import_file(rt: &impl Print, file: &[u8]) -> io::Result<()> {
    let mut numbers = [0u32; NUMBERS_SIZE];
    let mut bytes = [0u8; BYTES_SIZE];
    odm_open(&mut numbers, &mut bytes, b"ST", b"V1");
    let answer = odm_import(&mut numbers, &mut bytes, file);
    if answer.refusal != 0 {
        return say(rt, "refused", answer.refusal);
    }
    say(rt, "accepted", answer.count)?;
    print_snapshot(rt, &numbers, &bytes)
}

// Fills out from an input as far as that has bytes, and returns how many came.
fn read_full(input: &mut impl Read, out: &mut [u8]) -> io::Result<usize>
    ensures { IfOk result (λ n. n ≤ length out.old) }
{
    let mut n = 0;
    // Counted by hand: no method of std fills a lent slice as far as the input goes and says how far.
    while n < out.len() {
        let count = input.read(&mut out[n..])?;
        if count == 0 {
            return Ok(n);
        }
        n += count;
    }
    Ok(n)
}

fn main(rt: HostRuntime) -> io::Result<()> {
    let mut file = [0u8; FILE_ROOM];
    let mut input = rt.reader();
    let length = read_full(&mut input, &mut file)?;
    let mut more = [0u8; 1];
    if read_full(&mut input, &mut more)? != 0 {
        return say(&rt, "refused", 3);
    }
    import_file(&rt, &file[..length])
}
