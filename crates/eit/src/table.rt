// The fields of the table itself, whose body begins at `at`.
ghost use Rattle.std.specs.Prelude.{◌≡◌, ◌<◌};
ghost use Rattle.eit.specs.Fields.{count_at, first_at, fields_at};

use bytes_at::byte;

#[derive(Clone, Copy)]
pub struct Table {
    pub source: usize,
    pub count: usize,
}

// How many events there are.
pub fn count(s: &[u8], at: usize) -> usize
    ensures { (result ≡ count_at s.now at) × (result < 256) }
{
    byte(s, at)
}

// Where the first begins.
pub fn first(at: usize) -> usize
    requires { at < 4096 }
    ensures { result ≡ first_at at }
{
    at + 1
}

pub fn fields_at(s: &[u8], extension: usize, at: usize) -> Table
    ensures { result ≡ fields_at s.now extension at }
{
    Table {
        source: extension,
        count: count(s, at),
    }
}
