// The body of an EIT, written from rows of numbers: eight to an event, as the rows of an EIT are read.
ghost use Rattle.std.specs.Prelude.{◌≡◌, true, ◌+◌, ◌*◌, ◌<◌, ◌≤◌, length, get_or};
ghost use Rattle.std.proofs.lemmas.List.Edits.{sets};
ghost use Rattle.part.specs.Parts.{end_of, bytes_in};
ghost use Rattle.format.specs.Repeats.{encs};
ghost use Rattle.format.specs.Formats.{any_bytes};
ghost use Rattle.format.specs.Told.{sized8, sized12};
ghost use Rattle.format.specs.Values.{number, bytes_of};
ghost use Rattle.strings.specs.Strings.{text};
ghost use Rattle.descriptor.specs.Descriptors.{descriptors, content_advisory};
ghost use Rattle.eit.specs.Format.{event_head, head_of, event_of, eit_of};
ghost use Rattle.eit.specs.Inner.{RowGiven, RowsGiven, size_given};
ghost use Rattle.eit.specs.Given.{head_given, title_given, list_given, event_given, events_given, row_fits, rows_fit, part_sound, row_sound, rows_sound};

use bytes_put::{put_number, put_part};
use descriptor::{CONTENT_ADVISORY, whole_descriptors};
use part::Part;
use strings::whole_text;

// A number of the rows; each of them has 32 bits.
fn number_at(rows: &[u32], i: usize) -> usize
    requires { i < length rows.now }
    ensures { (result ≡ get_or rows.now i 0) × (result < 4294967296) }
{
    rows[i] as usize
}

// Every number of the row that begins at number a has room in its field. A start_time always has.
fn row_fits(rows: &[u32], a: usize) -> bool
    requires { a + 8 ≤ length rows.now }
    ensures { result ≡ row_fits rows.now a }
{
    number_at(rows, a) < 16384
        && number_at(rows, a + 2) < 4
        && number_at(rows, a + 3) < 1048576
        && number_at(rows, a + 5) < 256
        && number_at(rows, a + 7) < 4096
}

// 23: every number of the first n rows has room in its field.
pub fn rows_fit(rows: &[u32], n: usize) -> bool
    requires { 8 * n ≤ length rows.now }
    ensures { result ≡ rows_fit rows.now n 0 }
{
    for i in 0..n {
        if !row_fits(rows, 8 * i) {
            return false;
        }
    }
    true
}

// Where the title of the row that begins at number a stands, and where its descriptors stand.
fn title_given(rows: &[u32], a: usize) -> Part
    requires { a + 8 ≤ length rows.now }
    ensures { (result ≡ title_given rows.now a) × ((result.start < 4294967296) × (result.length < 4294967296)) }
{
    Part {
        start: number_at(rows, a + 4),
        length: number_at(rows, a + 5),
    }
}

fn list_given(rows: &[u32], a: usize) -> Part
    requires { a + 8 ≤ length rows.now }
    ensures { (result ≡ list_given rows.now a) × ((result.start < 4294967296) × (result.length < 4294967296)) }
{
    Part {
        start: number_at(rows, a + 6),
        length: number_at(rows, a + 7),
    }
}

// A title that lies within the bytes, and that reading would accept.
fn title_sound(bytes: &[u8], p: Part) -> bool
    requires { (p.start < 4294967296) × (p.length < 4294967296) }
    ensures { result ≡ part_sound text bytes.now p }
{
    match bytes.get(p.start..p.start + p.length) {
        Some(t) => whole_text(t, t.len(), 0).is_ok(),
        None => false,
    }
}

// The same for descriptors.
fn list_sound(bytes: &[u8], p: Part) -> bool
    requires { (p.start < 4294967296) × (p.length < 4294967296) }
    ensures { result ≡ part_sound (descriptors content_advisory) bytes.now p }
{
    match bytes.get(p.start..p.start + p.length) {
        Some(d) => whole_descriptors(d, CONTENT_ADVISORY, d.len(), 0).is_ok(),
        None => false,
    }
}

fn row_sound(rows: &[u32], a: usize, bytes: &[u8]) -> bool
    requires { a + 8 ≤ length rows.now }
    ensures { result ≡ row_sound rows.now bytes.now a }
{
    title_sound(bytes, title_given(rows, a)) && list_sound(bytes, list_given(rows, a))
}

// 9: every title and descriptor list of the first n rows lies within the bytes, and reading would
// accept it.
pub fn rows_sound(rows: &[u32], n: usize, bytes: &[u8]) -> bool
    requires { 8 * n ≤ length rows.now }
    ensures { result ≡ rows_sound rows.now bytes.now n 0 }
{
    for i in 0..n {
        if !row_sound(rows, 8 * i, bytes) {
            return false;
        }
    }
    true
}

// The bytes that the events of the first n rows take.
pub fn events_size(rows: &[u32], n: usize) -> usize
    requires { (8 * n ≤ length rows.now) × ((n ≤ 255) × (rows_fit rows.now n 0 ≡ true)) }
    ensures { result ≡ size_given rows.now n 0 }
{
    let mut size = 0;
    for i in 0..n {
        size += 12 + number_at(rows, 8 * i + 5) + number_at(rows, 8 * i + 7);
    }
    size
}

// The head of an event, nine bytes from `at` on.
fn put_head(rows: &[u32], a: usize, out: &mut [u8], at: usize)
    requires { (a + 8 ≤ length rows.now) × ((row_fits rows.now a ≡ true) × (at + 9 ≤ length out.old)) }
    ensures { out.new ≡ sets out.old at (bytes_of 9 (number event_head (head_of (head_given rows.now a)))) }
{
    put_number::<2>(out, at, 0xC000 + number_at(rows, a));
    put_number::<4>(out, at + 2, number_at(rows, a + 1));
    put_number::<3>(
        out,
        at + 6,
        (12 + number_at(rows, a + 2)) * 1048576 + number_at(rows, a + 3),
    );
}

// A title with its length before it, and descriptors with theirs, from `at` on.
fn put_title(bytes: &[u8], p: Part, out: &mut [u8], at: usize)
    requires { ((end_of p ≤ length bytes.now) × (p.length < 256)) × (at + 1 + p.length ≤ length out.old) }
    ensures { out.new ≡ sets out.old at ((sized8 any_bytes).enc (record {}, bytes_in bytes.now p)) }
{
    put_number::<1>(out, at, p.length);
    put_part(out, at + 1, bytes, p);
}

fn put_list(bytes: &[u8], p: Part, out: &mut [u8], at: usize)
    requires { ((end_of p ≤ length bytes.now) × (p.length < 4096)) × (at + 2 + p.length ≤ length out.old) }
    ensures { out.new ≡ sets out.old at ((sized12 any_bytes).enc ((15, record {}), bytes_in bytes.now p)) }
{
    put_number::<2>(out, at, 0xF000 + p.length);
    put_part(out, at + 2, bytes, p);
}

// The event of the row that begins at number a, from `at` on; answers where the next begins.
pub fn put_event(rows: &[u32], a: usize, bytes: &[u8], out: &mut [u8], at: usize) -> usize
    requires { RowGiven rows.now bytes.now a × (at + (12 + (title_given rows.now a).length + (list_given rows.now a).length) ≤ length out.old) }
    ensures puts { out.new ≡ sets out.old at ((event_of any_bytes any_bytes).enc (event_given rows.now bytes.now a)) }
    ensures next { result ≡ at + length ((event_of any_bytes any_bytes).enc (event_given rows.now bytes.now a)) }
{
    let t = title_given(rows, a);
    let d = list_given(rows, a);
    put_head(rows, a, out, at);
    put_title(bytes, t, out, at + 9);
    put_list(bytes, d, out, at + 10 + t.length);
    at + 12 + t.length + d.length
}

// The events of the first n rows, from `at` on.
pub fn put_events(rows: &[u32], n: usize, bytes: &[u8], out: &mut [u8], at: usize)
    requires { RowsGiven rows.now bytes.now n 0 × (at + size_given rows.now n 0 ≤ length out.old) }
    ensures { out.new ≡ sets out.old at (encs (event_of any_bytes any_bytes).enc (events_given rows.now bytes.now n 0)) }
{
    let mut next = at;
    for i in 0..n {
        next = put_event(rows, 8 * i, bytes, out, next);
    }
}

// The body of an EIT of the first n rows, from `at` on: the count and the events.
pub fn put_body(rows: &[u32], n: usize, bytes: &[u8], out: &mut [u8], at: usize)
    requires { (RowsGiven rows.now bytes.now n 0 × (n ≤ 255)) × (at + 1 + size_given rows.now n 0 ≤ length out.old) }
    ensures { out.new ≡ sets out.old at ((eit_of any_bytes any_bytes).enc (record { events = events_given rows.now bytes.now n 0 })) }
{
    put_number::<1>(out, at, n);
    put_events(rows, n, bytes, out, at + 1);
}
