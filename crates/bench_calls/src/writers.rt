// Rows that are read, and an EIT that is written from rows.
ghost use Rattle.std.specs.Prelude.{◌≡◌, length};
ghost use Rattle.refusal.specs.Outputs.{counted};
ghost use Rattle.rows.specs.declared.Entry.TheVariants.{Event};
ghost use Rattle.rows.specs.Rows.{rows_of};
ghost use Rattle.writing.specs.Written.{eit_written};
ghost use Rattle.bench_calls.specs.Told.{or_zero, header};

use rows::Entry;
use section::write::Given;

// How many events there are, with their rows in the list, or 0.
#[unsafe(no_mangle)]
pub extern "C" fn bench_rows(s: &[u8], out: &mut [u32]) -> usize
    ensures { result ≡ or_zero (rows_of Event s.now (length out.old)) }
{
    rows::rows(s, Entry::Event, out).unwrap_or(0)
}

// How many bytes the EIT has that these rows and bytes give, or 0.
#[unsafe(no_mangle)]
pub extern "C" fn bench_write(count: usize, rows: &[u32], bytes: &[u8], out: &mut [u8]) -> usize
    ensures { result ≡ or_zero (counted (eit_written header count rows.now bytes.now (length out.old))) }
{
    let g = Given {
        extension: 7,
        version: 3,
        current: 1,
        number: 0,
        last: 0,
    };
    writing::eits::write(g, count, rows, bytes, out).unwrap_or(0)
}
