// What is given to be written, out of numbers.
ghost use Rattle.std.specs.Prelude.{◌≡◌};
ghost use Rattle.telling.specs.Writers.{given_in};

use crate::told::wide;
use section::write::Given;

// What a header is given by.
pub fn given_in(given: &[u32; 6]) -> Given
    ensures { result ≡ given_in given.now }
{
    Given {
        extension: wide(given[0]),
        version: wide(given[1]),
        current: wide(given[2]),
        number: wide(given[3]),
        last: wide(given[4]),
    }
}
