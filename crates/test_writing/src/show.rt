// What a writer answered, and the buffer afterwards.
use refusal::Refusal;
use std::io;
use test_lines::digest::of_bytes;
use test_lines::{answered, number, numbers, say, told};

fn answer(rt: &impl Print, w: Result<usize, Refusal>) -> io::Result<()> {
    answered(rt, w, |n| told(rt, b" written", n))?;
    say(rt, b":")
}

pub fn digest(rt: &impl Print, w: Result<usize, Refusal>, out: &[u8]) -> io::Result<()> {
    answer(rt, w)?;
    number(rt, of_bytes(out))
}

// Every byte, as a number.
pub fn bytes(rt: &impl Print, w: Result<usize, Refusal>, out: &[u8]) -> io::Result<()> {
    answer(rt, w)?;
    numbers(rt, out)
}
