// The tables' records and their entries, as they are told.
ghost use Rattle.std.specs.Prelude.{◌≡◌, map};
ghost use Rattle.refusal.specs.Outcomes.{outcome};
ghost use Rattle.telling.specs.Told.{Told, noted};
ghost use Rattle.telling.specs.Tables.{mgt_numbers, defined_numbers, tvct_numbers, channel_numbers, rrt_numbers, dimension_numbers, value_numbers, eit_numbers, title_sort, title_place_told, event_numbers, ett_numbers};

use crate::told::{NO_VALUE, four, note, number_of, three, two};
use channel::Channel;
use eit::{Event, Title};
use mgt::Defined;
use part::Part;
use reading::{eits, etts, mgts, rrts, tvcts};
use refusal::Refusal;
use rrt::Table;

// An MGT: the count of defined tables and the table's own descriptors.
pub fn tell_mgt(answer: Result<mgts::Table, Refusal>, fields: &mut [u32; 3]) -> u32
    ensures { Told mgt_numbers (outcome answer) fields.old result fields.new }
{
    match answer {
        Err(k) => number_of(k),
        Ok(t) => {
            let d = t.descriptors;
            *fields = three(t.tables_defined, d.start, d.length);
            0
        }
    }
}

fn defined_numbers(t: Defined) -> [u32; 6]
    ensures { result ≡ map noted (defined_numbers t) }
{
    let d = t.descriptors;
    [
        note(t.table_type),
        note(t.pid),
        note(t.version),
        note(t.number_bytes),
        note(d.start),
        note(d.length),
    ]
}

// A defined table.
pub fn tell_defined(answer: Result<mgts::Defined, Refusal>, fields: &mut [u32; 6]) -> u32
    ensures { Told defined_numbers (outcome answer) fields.old result fields.new }
{
    match answer {
        Err(k) => number_of(k),
        Ok(t) => {
            *fields = defined_numbers(t);
            0
        }
    }
}

// A TVCT: the transport stream, the count of channels and the table's own descriptors.
pub fn tell_tvct(answer: Result<tvcts::Table, Refusal>, fields: &mut [u32; 4]) -> u32
    ensures { Told tvct_numbers (outcome answer) fields.old result fields.new }
{
    match answer {
        Err(k) => number_of(k),
        Ok(t) => {
            let d = t.descriptors;
            *fields = four(t.tsid, t.count, d.start, d.length);
            0
        }
    }
}

// The numbers of 32 bits are told as they are.
fn channel_numbers(c: Channel) -> [u32; 21]
    ensures { result ≡ map noted (channel_numbers c) }
{
    let n = c.name;
    let t = c.tuning;
    let v = c.service;
    let d = c.descriptors;
    [
        n.n0,
        n.n1,
        n.n2,
        n.n3,
        n.n4,
        n.n5,
        n.n6,
        t.major,
        t.minor,
        t.modulation,
        t.carrier,
        t.channel_tsid,
        t.program_number,
        v.etm_location,
        v.access_controlled,
        v.hidden,
        v.six_bits,
        v.service_type,
        v.source_id,
        note(d.start),
        note(d.length),
    ]
}

// A channel.
pub fn tell_channel(answer: Result<tvcts::Channel, Refusal>, fields: &mut [u32; 21]) -> u32
    ensures { Told channel_numbers (outcome answer) fields.old result fields.new }
{
    match answer {
        Err(k) => number_of(k),
        Ok(c) => {
            *fields = channel_numbers(c);
            0
        }
    }
}

fn rrt_numbers(t: Table) -> [u32; 7]
    ensures { result ≡ map noted (rrt_numbers t) }
{
    let name = t.name;
    let d = t.descriptors;
    [
        note(t.extension),
        note(t.region),
        note(name.start),
        note(name.length),
        note(t.dimensions),
        note(d.start),
        note(d.length),
    ]
}

// An RRT: the region and its name, the count of dimensions and the table's own descriptors.
pub fn tell_rrt(answer: Result<rrts::Table, Refusal>, fields: &mut [u32; 7]) -> u32
    ensures { Told rrt_numbers (outcome answer) fields.old result fields.new }
{
    match answer {
        Err(k) => number_of(k),
        Ok(t) => {
            *fields = rrt_numbers(t);
            0
        }
    }
}

// A dimension.
pub fn tell_dimension(answer: Result<rrts::Dimension, Refusal>, fields: &mut [u32; 4]) -> u32
    ensures { Told dimension_numbers (outcome answer) fields.old result fields.new }
{
    match answer {
        Err(k) => number_of(k),
        Ok(d) => {
            let name = d.name;
            *fields = four(name.start, name.length, d.graduated_scale, d.values);
            0
        }
    }
}

// The texts of a value.
pub fn tell_value(answer: Result<rrts::ValueTexts, Refusal>, fields: &mut [u32; 4]) -> u32
    ensures { Told value_numbers (outcome answer) fields.old result fields.new }
{
    match answer {
        Err(k) => number_of(k),
        Ok(v) => {
            let short = v.short_text;
            let long = v.long_text;
            *fields = four(short.start, short.length, long.start, long.length);
            0
        }
    }
}

// An EIT: the source and the count of events.
pub fn tell_eit(answer: Result<eits::Table, Refusal>, fields: &mut [u32; 2]) -> u32
    ensures { Told eit_numbers (outcome answer) fields.old result fields.new }
{
    match answer {
        Err(k) => number_of(k),
        Ok(t) => {
            *fields = two(t.source, t.count);
            0
        }
    }
}

fn title_sort(title: Title) -> usize
    ensures { result ≡ title_sort title }
{
    match title {
        Title::None => 1,
        Title::NoStrings => 2,
        Title::Text(_p) => 3,
    }
}

fn title_place(title: Title) -> Part
    ensures { result ≡ title_place_told title }
{
    let nowhere = Part {
        start: NO_VALUE,
        length: NO_VALUE,
    };
    match title {
        Title::None => nowhere,
        Title::NoStrings => nowhere,
        Title::Text(p) => p,
    }
}

fn event_numbers(e: Event) -> [u32; 9]
    ensures { result ≡ map noted (event_numbers e) }
{
    let title = e.title;
    let p = title_place(title);
    let d = e.descriptors;
    [
        note(e.event_id),
        note(e.start_time),
        note(e.etm_location),
        note(e.length_in_seconds),
        note(title_sort(title)),
        note(p.start),
        note(p.length),
        note(d.start),
        note(d.length),
    ]
}

// An event.
pub fn tell_event(answer: Result<eits::Event, Refusal>, fields: &mut [u32; 9]) -> u32
    ensures { Told event_numbers (outcome answer) fields.old result fields.new }
{
    match answer {
        Err(k) => number_of(k),
        Ok(e) => {
            *fields = event_numbers(e);
            0
        }
    }
}

// An ETT: the extension, ETM_id and where the text stands.
pub fn tell_ett(answer: Result<etts::Table, Refusal>, fields: &mut [u32; 4]) -> u32
    ensures { Told ett_numbers (outcome answer) fields.old result fields.new }
{
    match answer {
        Err(k) => number_of(k),
        Ok(t) => {
            let p = t.text;
            *fields = four(t.extension, t.etm_id, p.start, p.length);
            0
        }
    }
}
