// Judges the vectors of tests/test_judging.py: the op is the table_id of the kind that is asked for, or 0 for any.
#![tactic(auto)]

use kind::Kind;
use section::Header;
use section::inner::{Fault, inspect_any, inspect_kind};
use std::io;
use test_lines::{each, numbers, refused, say, told};

fn show_header(rt: &impl Print, h: Header) -> io::Result<()> {
    say(rt, b" passes")?;
    numbers(
        rt,
        &[
            h.kind.table_id(),
            h.extension,
            h.version,
            h.current,
            h.number,
            h.last,
        ],
    )
}

fn show(rt: &impl Print, judged: Result<Header, Fault>) -> io::Result<()> {
    match judged {
        Ok(h) => show_header(rt, h),
        Err(Fault::Refused(k)) => refused(rt, k),
        Err(Fault::Broken(x)) => told(rt, b" refused 9 at", x),
    }
}

fn answer(rt: &impl Print, asked: usize, s: &[u8]) -> io::Result<()> {
    match (asked, Kind::of(asked)) {
        (0, _) => show(rt, inspect_any(s)),
        (_, Some(k)) => show(rt, inspect_kind(s, k)),
        (_, None) => say(rt, b" no such kind"),
    }
}

fn main(rt: HostRuntime) -> io::Result<()> {
    each(&rt, |v, s| answer(&rt, v.op, s))
}
