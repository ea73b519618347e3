// The fields of the table itself, whose body begins at `at`.
ghost use Rattle.std.specs.Prelude.{◌≡◌, ◌<◌, ◌≤◌, length};
ghost use Rattle.tvct.specs.Fields.{count_at, first_at, fields_at};

use bytes_at::byte;
use descriptor::list_at;
use part::Part;

#[derive(Clone, Copy)]
pub struct Table {
    pub tsid: usize,
    pub count: usize,
    pub descriptors: Part,
}

// How many channels there are.
pub fn count(s: &[u8], at: usize) -> usize
    ensures { (result ≡ count_at s.now at) × (result < 256) }
{
    byte(s, at)
}

// Where the first begins.
pub fn first(at: usize) -> usize
    requires { at < 4096 }
    ensures { result ≡ first_at at }
{
    at + 1
}

// The table's own descriptors begin at b.
pub fn fields_at(s: &[u8], extension: usize, at: usize, b: usize) -> Table
    requires { b ≤ length s.now }
    ensures { result ≡ fields_at s.now extension at b }
{
    let descriptors = list_at(s, 1024, b);
    Table {
        tsid: extension,
        count: count(s, at),
        descriptors,
    }
}
