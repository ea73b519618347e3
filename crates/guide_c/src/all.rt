// All entries of a table, a row of numbers for each.
ghost use Rattle.std.specs.Prelude.{◌≡◌, length};
ghost use Rattle.rows.specs.Rows.{rows_of, with_rows};
ghost use Rattle.rows.specs.Values.{value_rows_of, with_value_rows};
ghost use Rattle.telling.specs.Told.{Told, one_number};

use rows::Entry;

// Of the defined tables of an MGT.
#[unsafe(no_mangle)]
pub extern "C" fn guide_mgt_tables(s: &[u8], out: &mut [u32], count: &mut [u32; 1]) -> u32
    ensures told { Told one_number (rows_of Entry.Table s.now (length out.old)) count.old result count.new }
    ensures put { out.new ≡ with_rows Entry.Table s.now (rows_of Entry.Table s.now (length out.old)) out.old }
{
    guide::all::guide_mgt_tables(s, out, count)
}

// Of the channels of a TVCT.
#[unsafe(no_mangle)]
pub extern "C" fn guide_tvct_channels(s: &[u8], out: &mut [u32], count: &mut [u32; 1]) -> u32
    ensures told { Told one_number (rows_of Entry.Channel s.now (length out.old)) count.old result count.new }
    ensures put { out.new ≡ with_rows Entry.Channel s.now (rows_of Entry.Channel s.now (length out.old)) out.old }
{
    guide::all::guide_tvct_channels(s, out, count)
}

// Of the dimensions of an RRT.
#[unsafe(no_mangle)]
pub extern "C" fn guide_rrt_dimensions(s: &[u8], out: &mut [u32], count: &mut [u32; 1]) -> u32
    ensures told { Told one_number (rows_of Entry.Dimension s.now (length out.old)) count.old result count.new }
    ensures put { out.new ≡ with_rows Entry.Dimension s.now (rows_of Entry.Dimension s.now (length out.old)) out.old }
{
    guide::all::guide_rrt_dimensions(s, out, count)
}

// Of the events of an EIT.
#[unsafe(no_mangle)]
pub extern "C" fn guide_eit_events(s: &[u8], out: &mut [u32], count: &mut [u32; 1]) -> u32
    ensures told { Told one_number (rows_of Entry.Event s.now (length out.old)) count.old result count.new }
    ensures put { out.new ≡ with_rows Entry.Event s.now (rows_of Entry.Event s.now (length out.old)) out.old }
{
    guide::all::guide_eit_events(s, out, count)
}

// Of all values of the dimensions of an RRT.
#[unsafe(no_mangle)]
pub extern "C" fn guide_rrt_values(s: &[u8], out: &mut [u32], count: &mut [u32; 1]) -> u32
    ensures told { Told one_number (value_rows_of s.now (length out.old)) count.old result count.new }
    ensures put { out.new ≡ with_value_rows s.now (value_rows_of s.now (length out.old)) out.old }
{
    guide::all::guide_rrt_values(s, out, count)
}
