// A title as the lister shows it.
ghost use Rattle.std.specs.Prelude.{◌≡◌, [], ◌∷◌, ◌/◌, ◌%◌, ◌≤◌, ◌<◌, length};
ghost use Rattle.part.specs.Parts.{end_of};
ghost use Rattle.refusal.specs.Outcomes.{resulted};
ghost use Rattle.text.specs.Strings.{string_units};
ghost use Rattle.shown.specs.Ascii.{hex_digit};
ghost use Rattle.shown.specs.Titles.{escaped, plain, shown, all_shown, text_shown, title_shown};
ghost use Rattle.shown.specs.Output.{Put};
ghost use Rattle.shown.specs.Inner.{Placed, Fits, told};

use crate::put::{number_of, put, put_all, put_field};
use eit::Title;
use part::Part;
use refusal::Refusal;
use text::Amount;
use text::inner::string_read;

fn hex_digit(d: u8) -> u8
    requires { d < 16 }
    ensures { result ≡ hex_digit d }
{
    if d < 10 { b'0' + d } else { b'A' - 10 + d }
}

// Two hex digits.
fn put_hex(out: &mut [u8], n: usize, x: u8) -> usize
    ensures { Put (hex_digit (x / 16) ∷ hex_digit (x % 16) ∷ []) out.old n result out.new }
{
    let m = put(out, n, hex_digit(x / 16));
    put(out, m, hex_digit(x % 16))
}

fn put_escaped(out: &mut [u8], n: usize, u: u16) -> usize
    ensures { Put (escaped u) out.old n result out.new }
{
    let m = put_all(out, n, b"\\u");
    let low = put_hex(out, m, (u / 256) as u8);
    put_hex(out, low, (u % 256) as u8)
}

fn is_plain(u: u16) -> bool
    ensures { result ≡ plain u }
{
    match u {
        32..=126 => u != 34 && u != 92,
        _ => false,
    }
}

fn put_unit(out: &mut [u8], n: usize, u: u16) -> usize
    ensures { Put (shown u) out.old n result out.new }
{
    if is_plain(u) {
        return put(out, n, u as u8);
    }
    put_escaped(out, n, u)
}

fn put_units(out: &mut [u8], n: usize, units: &[u16]) -> usize
    ensures { Put (all_shown units.now) out.old n result out.new }
{
    let mut m = out.len().min(n);
    for u in units {
        m = put_unit(out, m, *u);
    }
    m
}

fn put_quoted(out: &mut [u8], n: usize, units: &[u16]) -> usize
    ensures { Put (text_shown (resulted units.now)) out.old n result out.new }
{
    let m = put_all(out, n, b"\"");
    let end = put_units(out, m, units);
    put_all(out, end, b"\"")
}

// The text that a call answered, its units at the list's start.
fn put_answer(r: Result<Amount, Refusal>, units: &[u16], out: &mut [u8], n: usize) -> usize
    requires { Fits r units.now }
    ensures { Put (text_shown (told r units.now)) out.old n result out.new }
{
    match r {
        Ok(a) => put_quoted(out, n, &units[..a.units]),
        Err(k) => put_field(out, n, b"refused ", number_of(k)),
    }
}

// The text of a field's first string. The units have room for every text that a field of 255 bytes can hold.
fn put_text(s: &[u8], p: Part, units: &mut [u16; 2040], out: &mut [u8], n: usize) -> usize
    requires { (end_of p ≤ length s.now) × (p.length < 256) }
    ensures { Put (text_shown (string_units s.now (end_of p) p.start 0)) out.old n result out.new }
{
    let at = p.start;
    let end = at + p.length;
    let r = string_read(s, end, at, 0, units);
    put_answer(r, units, out, n)
}

pub fn put_title(s: &[u8], t: Title, units: &mut [u16; 2040], out: &mut [u8], n: usize) -> usize
    requires { Placed (length s.now) t }
    ensures { Put (title_shown s.now t) out.old n result out.new }
{
    match t {
        Title::None => put_all(out, n, b"none"),
        Title::NoStrings => put_all(out, n, b"empty"),
        Title::Text(p) => put_text(s, p, units, out, n),
    }
}
