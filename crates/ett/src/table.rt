// The fields of the table, whose body stands from `at` to `end`.
ghost use Rattle.std.specs.Prelude.{◌≡◌, ◌<◌};
ghost use Rattle.ett.specs.Fields.{fields_at};

use bytes_at::long;
use part::Part;

#[derive(Clone, Copy)]
pub struct Table {
    pub extension: usize,
    pub etm_id: usize,
    pub text: Part,
}

// The text takes what is left of the body behind ETM_id.
pub fn fields_at(s: &[u8], extension: usize, at: usize, end: usize) -> Table
    requires { at < 4096 }
    ensures { result ≡ fields_at s.now extension at end }
{
    let start = at + 4;
    let text = Part {
        start,
        length: end.saturating_sub(start),
    };
    Table {
        extension,
        etm_id: long(s, at),
        text,
    }
}
