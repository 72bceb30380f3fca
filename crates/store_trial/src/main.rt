// Opens a store, adds a file by hand, withdraws it, and prints each answer: the refusal number and the count.
#![tactic(auto)]

use std::io;
use store::answer::Answer;
use store::open::open;
use store::sizes::{BYTES_SIZE, NUMBERS_SIZE};
use store::withdraw::withdraw;
use store::write::{append_change, close_file};

fn say(rt: &impl Print, call: &str, answer: Answer) -> io::Result<()> {
    println!(rt; "{call} {} {}", answer.refusal, answer.count)
}

// Two subjects and an event of the first: a file of three changes, FileOID F1.
fn add_file(numbers: &mut [u32], bytes: &mut [u8]) {
    if numbers.len() != NUMBERS_SIZE || bytes.len() != BYTES_SIZE {
        return;
    }
    append_change(numbers, bytes, 0, 0, 1, 1, &[1, 55]);
    append_change(numbers, bytes, 1, 2, 1, 1, &[1, 56]);
    append_change(numbers, bytes, 2, 4, 1, 2, &[1, 55, 3, 83, 67, 82, 0]);
    close_file(numbers, bytes, 0, b"F1", b"2014-03-01T09:00:00", 3, 11);
}

fn refusals(rt: &impl Print, numbers: &mut [u32], bytes: &mut [u8]) -> io::Result<()> {
    say(rt, "withdraw from zeros", withdraw(numbers, bytes, b"F1"))?;
    say(rt, "open without a study", open(numbers, bytes, b"", b"V1"))?;
    let empty = &mut numbers[0..0];
    say(rt, "open without numbers", open(empty, bytes, b"ST", b"V1"))
}

fn opened(rt: &impl Print, numbers: &mut [u32], bytes: &mut [u8]) -> io::Result<()> {
    say(rt, "open", open(numbers, bytes, b"ST", b"V1"))?;
    say(
        rt,
        "withdraw from the empty store",
        withdraw(numbers, bytes, b"F1"),
    )
}

fn chain(rt: &impl Print, numbers: &mut [u32], bytes: &mut [u8]) -> io::Result<()> {
    add_file(numbers, bytes);
    say(rt, "withdraw another file", withdraw(numbers, bytes, b"F2"))?;
    say(rt, "withdraw", withdraw(numbers, bytes, b"F1"))
}

// Whether the bytes are those of the empty store.
fn as_opened(
    rt: &impl Print,
    numbers: &mut [u32],
    fresh: &mut [u8],
    bytes: &[u8],
) -> io::Result<()> {
    open(numbers, fresh, b"ST", b"V1");
    if &*fresh == bytes {
        println!(rt; "the bytes are as before")?;
    }
    Ok(())
}

// A byte of a change's key that no name may have.
fn damage(bytes: &mut [u8]) {
    if let Some(byte) = bytes.get_mut(5444) {
        *byte = 9;
    }
}

fn damaged(rt: &impl Print, numbers: &mut [u32], bytes: &mut [u8]) -> io::Result<()> {
    add_file(numbers, bytes);
    damage(bytes);
    say(
        rt,
        "withdraw from a damaged image",
        withdraw(numbers, bytes, b"F1"),
    )
}

fn trial(
    rt: &impl Print,
    numbers: &mut [u32],
    bytes: &mut [u8],
    fresh: &mut [u8],
) -> io::Result<()> {
    refusals(rt, numbers, bytes)?;
    opened(rt, numbers, bytes)?;
    chain(rt, numbers, bytes)?;
    as_opened(rt, numbers, fresh, bytes)?;
    damaged(rt, numbers, bytes)
}

fn main(rt: HostRuntime) -> io::Result<()> {
    let mut numbers = [0u32; NUMBERS_SIZE];
    let mut bytes = [0u8; BYTES_SIZE];
    let mut fresh = [0u8; BYTES_SIZE];
    trial(&rt, &mut numbers, &mut bytes, &mut fresh)
}
