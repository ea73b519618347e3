// What the test programs share: how the next vector is read, and the words of which their lines are made.
// tests/README.md describes both field by field.
#![tactic(auto)]

pub mod digest;

ghost use Rattle.std.specs.Prelude.{◌<◌, ◌≤◌, length, IfOk, IfSome};

use bytes_at::{byte, long, word};
use refusal::Refusal;
use std::fmt::Display;
use std::io;
use std::io::{ErrorKind, Read};

const HEAD: usize = 35;

// Room for the bytes of any vector.
pub const ROOM: usize = 65536;

// A vector without its bytes, of which there are `size`.
#[derive(Clone, Copy)]
pub struct Vector {
    pub op: usize,
    pub a: usize,
    pub b: usize,
    pub c: usize,
    pub d: usize,
    pub size: usize,
}

// A number of 64 bits.
fn huge(s: &[u8], at: usize) -> usize
    requires { at < 64 }
{
    long(s, at) * 4294967296 + long(s, at + 4)
}

fn vector_of(head: &[u8]) -> Vector {
    Vector {
        op: byte(head, 0),
        a: huge(head, 1),
        b: huge(head, 9),
        c: huge(head, 17),
        d: huge(head, 25),
        size: word(head, 33),
    }
}

// Fills `s` from the input; false where the input has fewer bytes.
fn filled<I: Read>(input: &mut I, s: &mut [u8]) -> io::Result<bool> {
    match input.read_exact(s) {
        Ok(()) => Ok(true),
        Err(e) if e.kind() == ErrorKind::UnexpectedEof => Ok(false),
        Err(e) => Err(e),
    }
}

// The next vector, where the input has a further one and `s` has room for it, and in the first places of `s` its bytes. Its number n
// opens the line.
pub fn next<R: Input + Print>(rt: &R, n: u64, s: &mut [u8]) -> io::Result<Option<Vector>>
    ensures { IfOk result (λ o. IfSome o (λ v. v.size ≤ length s.new)) }
{
    let mut input = rt.reader();
    let mut head = [0u8; HEAD];
    if !filled(&mut input, &mut head)? {
        return Ok(None);
    }
    let v = vector_of(&head);
    if s.len() < v.size || !filled(&mut input, &mut s[..v.size])? {
        return Ok(None);
    }
    rt.print(n)?;
    Ok(Some(v))
}

// Every vector of the input and what is said of it, each in a line of its own.
pub fn each<R: Input + Print, F: FnMut(Vector, &[u8]) -> io::Result<()>>(
    rt: &R,
    mut answer: F,
) -> io::Result<()>
    requires { F.IsAlwaysCallable answer }
{
    let mut s = [0u8; ROOM];
    for n in 0..u64::MAX {
        let Some(v) = next(rt, n, &mut s)? else {
            return end(rt, n);
        };
        answer(v, &s[..v.size])?;
        say(rt, b"\n")?;
    }
    end(rt, u64::MAX)
}

pub fn say(rt: &impl Print, words: &[u8]) -> io::Result<()> {
    rt.write_all(words)
}

pub fn number(rt: &impl Print, n: impl Display + Copy) -> io::Result<()> {
    print!(rt; " {n}")
}

pub fn numbers<T: Display + Copy>(rt: &impl Print, list: &[T]) -> io::Result<()> {
    for n in list {
        number(rt, *n)?;
    }
    Ok(())
}

pub fn told(rt: &impl Print, words: &[u8], n: impl Display + Copy) -> io::Result<()> {
    say(rt, words)?;
    number(rt, n)
}

pub fn refused(rt: &impl Print, k: Refusal) -> io::Result<()> {
    told(rt, b" refused", k.number())
}

// What a call answered, as `show` shows it, or its refusal.
pub fn answered<T, F: FnOnce(T) -> io::Result<()>>(
    rt: &impl Print,
    answer: Result<T, Refusal>,
    show: F,
) -> io::Result<()>
    requires { F.IsAlwaysCallable show }
{
    match answer {
        Ok(x) => show(x),
        Err(k) => refused(rt, k),
    }
}

// The last line: how many vectors there were.
pub fn end(rt: &impl Print, n: u64) -> io::Result<()> {
    rt.print(n)?;
    say(rt, b" vectors\n")
}
