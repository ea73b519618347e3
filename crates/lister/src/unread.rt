// The line on standard error that says why the input cannot be read.
ghost use Rattle.std.specs.Prelude.{◌≤◌, length};

use std::io;
use std::io::Write;

// Behind the system's words std's text of an error has its number, as in "Is a directory (os error 21)".
const NUMBER: &[u8] = b" (os error ";

// Room for the text of any error of the system.
const LONGEST: usize = 320;

// How many bytes stand before the error's number, or before the first 0.
fn words_in(text: &[u8]) -> usize
    ensures { result ≤ length text.now }
{
    for i in 0..text.len() {
        if text[i] == 0 || text[i..].starts_with(NUMBER) {
            return i;
        }
    }
    text.len()
}

fn say(errors: &impl Print, words: &[u8]) -> io::Result<()> {
    errors.write_all(b"lister: cannot read the input: ")?;
    errors.write_all(words)?;
    errors.write_all(b"\n")
}

// Where standard error takes no more, the line is lost.
pub fn tell(errors: &impl Print, why: io::Error) {
    let mut text = [0u8; LONGEST];
    let mut room = &mut text[..];
    let _ = write!(room, "{why}");
    let n = words_in(&text);
    let _ = say(errors, &text[..n]);
}
