// The lines of the events of an EIT that was judged.
ghost use Rattle.std.specs.Prelude.{◌++◌, ◌≤◌, length};
ghost use Rattle.eit.specs.Fields.{count_at, first_at, event_at};
ghost use Rattle.eit.specs.Inner.{Events};
ghost use Rattle.shown.specs.Ascii.{ascii};
ghost use Rattle.shown.specs.Titles.{title_shown};
ghost use Rattle.lines.specs.Lines.{times_shown, event_line, event_lines, events_shown};
ghost use Rattle.shown.specs.Output.{Put};
ghost use Rattle.shown.specs.Inner.{Placed};

use eit::{Event, Title, count, event_at, event_end, first};
use shown::{put_all, put_field, put_title};

fn put_times(out: &mut [u8], n: usize, e: Event) -> usize
    ensures { Put (times_shown e) out.old n result out.new }
{
    let start = put_field(out, n, b"event ", e.event_id);
    let length = put_field(out, start, b" start ", e.start_time);
    put_field(out, length, b" length ", e.length_in_seconds)
}

// The title, and the line's end.
fn put_rest(s: &[u8], t: Title, units: &mut [u16; 2040], out: &mut [u8], n: usize) -> usize
    requires { Placed (length s.now) t }
    ensures { Put (ascii " title " ++ (title_shown s.now t ++ ascii "\n")) out.old n result out.new }
{
    let start = put_all(out, n, b" title ");
    let end = put_title(s, t, units, out, start);
    put_all(out, end, b"\n")
}

fn put_event(s: &[u8], a: usize, units: &mut [u16; 2040], out: &mut [u8], n: usize) -> usize
    requires { (a ≤ length s.now) × Placed (length s.now) (event_at s.now a).title }
    ensures { Put (event_line s.now a) out.old n result out.new }
{
    let e = event_at(s, a);
    let t = e.title;
    let m = put_times(out, n, e);
    put_rest(s, t, units, out, m)
}

fn put_events(
    s: &[u8],
    k: usize,
    from: usize,
    units: &mut [u16; 2040],
    out: &mut [u8],
    n: usize,
) -> usize
    requires { Events s.now k from }
    ensures { Put (event_lines s.now k from) out.old n result out.new }
{
    let mut m = out.len().min(n);
    let mut a = from;
    for _ in 0..k {
        m = put_event(s, a, units, out, m);
        a = event_end(s, a);
    }
    m
}

// The units are there once for all titles.
fn list_events(s: &[u8], k: usize, from: usize, out: &mut [u8], n: usize) -> usize
    requires { Events s.now k from }
    ensures { Put (event_lines s.now k from) out.old n result out.new }
{
    let mut units = [0u16; 2040];
    put_events(s, k, from, &mut units, out, n)
}

// The count of events, and their lines, where the body begins at `at`.
pub fn put_eit(s: &[u8], at: usize, out: &mut [u8], n: usize) -> usize
    requires { Events s.now (count_at s.now at) (first_at at) }
    ensures { Put (events_shown s.now at) out.old n result out.new }
{
    let k = count(s, at);
    let m = put_field(out, n, b" events ", k);
    let x = put_all(out, m, b"\n");
    list_events(s, k, first(at), out, x)
}
