// Writing an EIT or an ETT section.
ghost use Rattle.std.specs.Prelude.{◌≡◌, length};
ghost use Rattle.refusal.specs.Outputs.{counted, output_after};
ghost use Rattle.telling.specs.Told.{Told, one_number};
ghost use Rattle.telling.specs.Writers.{eit_from, ett_from};

use telling::fields::tell_count;
use telling::told::wide;
use telling::writers::given_in;
use writing::{eits, etts};

// An EIT: a row of eight numbers for each event, with places in `bytes`.
pub fn guide_write_eit(
    given: &[u32; 6],
    rows: &[u32],
    bytes: &[u8],
    out: &mut [u8],
    told: &mut [u32; 1],
) -> u32
    ensures answers { Told one_number (counted (eit_from given.now rows.now bytes.now (length out.old))) told.old result told.new }
    ensures writes { out.new ≡ output_after out.old (eit_from given.now rows.now bytes.now (length out.old)) }
{
    tell_count(
        eits::write(given_in(given), wide(given[5]), rows, bytes, out),
        told,
    )
}

// An ETT: its text as bytes.
pub fn guide_write_ett(given: &[u32; 6], text: &[u8], out: &mut [u8], told: &mut [u32; 1]) -> u32
    ensures answers { Told one_number (counted (ett_from given.now text.now (length out.old))) told.old result told.new }
    ensures writes { out.new ≡ output_after out.old (ett_from given.now text.now (length out.old)) }
{
    tell_count(
        etts::write(given_in(given), wide(given[5]), text, out),
        told,
    )
}
