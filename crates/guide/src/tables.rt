// The fields of the tables and of their entries.
ghost use Rattle.reading.specs.Mgts;
ghost use Rattle.reading.specs.Tvcts;
ghost use Rattle.reading.specs.Rrts;
ghost use Rattle.reading.specs.Eits;
ghost use Rattle.reading.specs.Etts;
ghost use Rattle.telling.specs.Told.{Told};
ghost use Rattle.telling.specs.Tables.{mgt_numbers, defined_numbers, tvct_numbers, channel_numbers, rrt_numbers, dimension_numbers, value_numbers, eit_numbers, event_numbers, ett_numbers};

use reading::{eits, etts, mgts, rrts, tvcts};
use telling::tables::{
    tell_channel, tell_defined, tell_dimension, tell_eit, tell_ett, tell_event, tell_mgt, tell_rrt,
    tell_tvct, tell_value,
};
use telling::told::wide;

// The count of defined tables and the table's own descriptors.
pub fn guide_mgt(s: &[u8], fields: &mut [u32; 3]) -> u32
    ensures { Told mgt_numbers (Mgts.fields_of s.now) fields.old result fields.new }
{
    tell_mgt(mgts::fields(s), fields)
}

// Defined table i.
pub fn guide_mgt_table(s: &[u8], i: u32, fields: &mut [u32; 6]) -> u32
    ensures { Told defined_numbers (Mgts.entry_of s.now i) fields.old result fields.new }
{
    tell_defined(mgts::entry(s, wide(i)), fields)
}

// The transport stream, the count of channels and the table's own descriptors.
pub fn guide_tvct(s: &[u8], fields: &mut [u32; 4]) -> u32
    ensures { Told tvct_numbers (Tvcts.fields_of s.now) fields.old result fields.new }
{
    tell_tvct(tvcts::fields(s), fields)
}

// Channel i.
pub fn guide_tvct_channel(s: &[u8], i: u32, fields: &mut [u32; 21]) -> u32
    ensures { Told channel_numbers (Tvcts.entry_of s.now i) fields.old result fields.new }
{
    tell_channel(tvcts::entry(s, wide(i)), fields)
}

// The region and its name, the count of dimensions and the table's own descriptors.
pub fn guide_rrt(s: &[u8], fields: &mut [u32; 7]) -> u32
    ensures { Told rrt_numbers (Rrts.fields_of s.now) fields.old result fields.new }
{
    tell_rrt(rrts::fields(s), fields)
}

// Dimension i.
pub fn guide_rrt_dimension(s: &[u8], i: u32, fields: &mut [u32; 4]) -> u32
    ensures { Told dimension_numbers (Rrts.entry_of s.now i) fields.old result fields.new }
{
    tell_dimension(rrts::entry(s, wide(i)), fields)
}

// The texts of value j of dimension i.
pub fn guide_rrt_value(s: &[u8], i: u32, j: u32, fields: &mut [u32; 4]) -> u32
    ensures { Told value_numbers (Rrts.value_of s.now i j) fields.old result fields.new }
{
    tell_value(rrts::value(s, wide(i), wide(j)), fields)
}

// The source and the count of events.
pub fn guide_eit(s: &[u8], fields: &mut [u32; 2]) -> u32
    ensures { Told eit_numbers (Eits.fields_of s.now) fields.old result fields.new }
{
    tell_eit(eits::fields(s), fields)
}

// Event i.
pub fn guide_eit_event(s: &[u8], i: u32, fields: &mut [u32; 9]) -> u32
    ensures { Told event_numbers (Eits.entry_of s.now i) fields.old result fields.new }
{
    tell_event(eits::entry(s, wide(i)), fields)
}

// The extension, ETM_id and where the text stands.
pub fn guide_ett(s: &[u8], fields: &mut [u32; 4]) -> u32
    ensures { Told ett_numbers (Etts.fields_of s.now) fields.old result fields.new }
{
    tell_ett(etts::fields(s), fields)
}
