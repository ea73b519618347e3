// All entries of a table, a row of numbers for each.
ghost use Rattle.std.specs.Prelude.{◌≡◌, length};
ghost use Rattle.rows.specs.Rows.{rows_of, with_rows};
ghost use Rattle.rows.specs.Values.{value_rows_of, with_value_rows};
ghost use Rattle.telling.specs.Told.{Told, one_number};

use rows::{Entry, rows, value_rows};
use telling::fields::tell_count;

// Of the defined tables of an MGT.
pub fn guide_mgt_tables(s: &[u8], out: &mut [u32], count: &mut [u32; 1]) -> u32
    ensures told { Told one_number (rows_of Entry.Table s.now (length out.old)) count.old result count.new }
    ensures put { out.new ≡ with_rows Entry.Table s.now (rows_of Entry.Table s.now (length out.old)) out.old }
{
    tell_count(rows(s, Entry::Table, out), count)
}

// Of the channels of a TVCT.
pub fn guide_tvct_channels(s: &[u8], out: &mut [u32], count: &mut [u32; 1]) -> u32
    ensures told { Told one_number (rows_of Entry.Channel s.now (length out.old)) count.old result count.new }
    ensures put { out.new ≡ with_rows Entry.Channel s.now (rows_of Entry.Channel s.now (length out.old)) out.old }
{
    tell_count(rows(s, Entry::Channel, out), count)
}

// Of the dimensions of an RRT.
pub fn guide_rrt_dimensions(s: &[u8], out: &mut [u32], count: &mut [u32; 1]) -> u32
    ensures told { Told one_number (rows_of Entry.Dimension s.now (length out.old)) count.old result count.new }
    ensures put { out.new ≡ with_rows Entry.Dimension s.now (rows_of Entry.Dimension s.now (length out.old)) out.old }
{
    tell_count(rows(s, Entry::Dimension, out), count)
}

// Of the events of an EIT.
pub fn guide_eit_events(s: &[u8], out: &mut [u32], count: &mut [u32; 1]) -> u32
    ensures told { Told one_number (rows_of Entry.Event s.now (length out.old)) count.old result count.new }
    ensures put { out.new ≡ with_rows Entry.Event s.now (rows_of Entry.Event s.now (length out.old)) out.old }
{
    tell_count(rows(s, Entry::Event, out), count)
}

// Of all values of the dimensions of an RRT.
pub fn guide_rrt_values(s: &[u8], out: &mut [u32], count: &mut [u32; 1]) -> u32
    ensures told { Told one_number (value_rows_of s.now (length out.old)) count.old result count.new }
    ensures put { out.new ≡ with_value_rows s.now (value_rows_of s.now (length out.old)) out.old }
{
    tell_count(value_rows(s, out), count)
}
