// The fields of the table itself, whose body begins at `at`.
ghost use Rattle.std.specs.Prelude.{◌≡◌, ◌<◌, ◌≤◌, length};
ghost use Rattle.mgt.specs.Fields.{count_at, first_at, fields_at};

use bytes_at::word;
use descriptor::list_at;
use part::Part;

#[derive(Clone, Copy)]
pub struct Table {
    pub tables_defined: usize,
    pub descriptors: Part,
}

// How many tables it defines.
pub fn count(s: &[u8], at: usize) -> usize
    ensures { (result ≡ count_at s.now at) × (result < 65536) }
{
    word(s, at)
}

// Where the first of them begins.
pub fn first(at: usize) -> usize
    requires { at < 4096 }
    ensures { result ≡ first_at at }
{
    at + 2
}

// The table's own descriptors begin at b.
pub fn fields_at(s: &[u8], at: usize, b: usize) -> Table
    requires { b ≤ length s.now }
    ensures { result ≡ fields_at s.now at b }
{
    let descriptors = list_at(s, 4096, b);
    Table {
        tables_defined: count(s, at),
        descriptors,
    }
}
