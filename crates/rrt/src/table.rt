// The fields of the table itself, whose body begins at `at`.
ghost use Rattle.std.specs.Prelude.{◌≡◌, ◌<◌, ◌≤◌, length};
ghost use Rattle.rrt.specs.Fields.{count_at, first_at, fields_at};

use bytes_at::byte;
use descriptor::list_at;
use part::Part;
use strings::{text_at, text_end};

// The region is the low byte of the extension.
#[derive(Clone, Copy)]
pub struct Table {
    pub extension: usize,
    pub region: usize,
    pub name: Part,
    pub dimensions: usize,
    pub descriptors: Part,
}

// How many dimensions there are.
pub fn count(s: &[u8], at: usize) -> usize
    requires { at ≤ length s.now }
    ensures { (result ≡ count_at s.now at) × (result < 256) }
{
    byte(s, text_end(s, at))
}

// Where the first begins.
pub fn first(s: &[u8], at: usize) -> usize
    requires { at ≤ length s.now }
    ensures { result ≡ first_at s.now at }
{
    text_end(s, at) + 1
}

// The table's own descriptors begin at b.
pub fn fields_at(s: &[u8], extension: usize, at: usize, b: usize) -> Table
    requires { (at ≤ length s.now) × (b ≤ length s.now) }
    ensures { result ≡ fields_at s.now extension at b }
{
    let name = text_at(s, at);
    let descriptors = list_at(s, 1024, b);
    Table {
        extension,
        region: extension % 256,
        name,
        dimensions: count(s, at),
        descriptors,
    }
}
