// The fields of a defined table that begins at a.
ghost use Rattle.std.specs.Prelude.{◌≡◌, ◌+◌, ◌<◌, ◌≤◌, length};
ghost use Rattle.mgt.specs.Fields.{descriptors_at, defined_at};

use bytes_at::{byte, long, word};
use descriptor::list_at;
use part::Part;

// A table that an MGT defines.
#[derive(Clone, Copy)]
pub struct Defined {
    pub table_type: usize,
    pub pid: usize,
    pub version: usize,
    pub number_bytes: usize,
    pub descriptors: Part,
}

// Where its descriptors stand.
pub fn descriptors_at(s: &[u8], a: usize) -> Part
    requires { a ≤ length s.now }
    ensures { (result ≡ descriptors_at s.now a) × ((result.start ≤ a + 11) × (result.length < 4096)) }
{
    list_at(s, 4096, a + 9)
}

pub fn defined_at(s: &[u8], a: usize) -> Defined
    requires { a ≤ length s.now }
    ensures { result ≡ defined_at s.now a }
{
    let descriptors = descriptors_at(s, a);
    Defined {
        table_type: word(s, a),
        pid: word(s, a + 2) % 8192,
        version: byte(s, a + 4) % 32,
        number_bytes: long(s, a + 5),
        descriptors,
    }
}
