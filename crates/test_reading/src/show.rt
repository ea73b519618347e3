// Words that the answers of several tables have in common.
use part::Part;
use rating::Rating;
use std::io;
use test_lines::{numbers, say, told};

pub fn part(rt: &impl Print, p: Part) -> io::Result<()> {
    numbers(rt, &[p.start, p.length])
}

pub fn rating(rt: &impl Print, r: Rating) -> io::Result<()> {
    match r {
        Rating::NoAdvisory => say(rt, b" no advisory"),
        Rating::RegionAbsent => say(rt, b" region absent"),
        Rating::DimensionAbsent => say(rt, b" dimension absent"),
        Rating::Value(v) => told(rt, b" value", v),
    }
}
