// What is printed for a record, and the lines around the records.
ghost use Rattle.lines.specs.Records.{first_line, last_line, record_lines, bad_lines};
ghost use Rattle.shown.specs.Output.{Put};

use crate::sections::put_section;
use record::{pid_of, section_of};
use shown::{put_all, put_field, put_number};

// The first line.
pub fn begin(out: &mut [u8]) -> usize
    ensures { Put first_line out.old 0 result out.new }
{
    put_all(out, 0, b"guide lister\n")
}

// The last line.
pub fn put_last(out: &mut [u8], n: usize, number: usize) -> usize
    ensures { Put (last_line number) out.old n result out.new }
{
    let m = put_field(out, n, b"end ", number);
    put_all(out, m, b"\n")
}

// The lines that end a run at a bad record.
pub fn put_bad(out: &mut [u8], number: usize) -> usize
    ensures { Put (bad_lines number) out.old 0 result out.new }
{
    let n = put_number(out, 0, number);
    let m = put_all(out, n, b" bad record\n");
    put_last(out, m, number)
}

// The lines of the record at the front of the bytes.
pub fn put_record(number: usize, bytes: &[u8], out: &mut [u8]) -> usize
    ensures { Put (record_lines number bytes.now) out.old 0 result out.new }
{
    let n = put_number(out, 0, number);
    put_section(pid_of(bytes), section_of(bytes), out, n)
}
