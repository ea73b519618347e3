// The body that is written: for the crates above, which give it an ETM_id that has room in its field.
ghost use Rattle.std.specs.Prelude.{◌≡◌, ◌+◌, ◌<◌, ◌≤◌, length};
ghost use Rattle.std.proofs.lemmas.List.Edits.{sets};
ghost use Rattle.format.specs.Formats.{any_bytes};
ghost use Rattle.ett.specs.Format.{ett_of};

use bytes_put::{put_number, put_part};
use part::Part;

// ETM_id and the text, from `at` on.
pub fn put_body(etm: usize, text: &[u8], out: &mut [u8], at: usize)
    requires { (etm < 4294967296) × (at + 4 + length text.now ≤ length out.old) }
    ensures { out.new ≡ sets out.old at ((ett_of any_bytes).enc (record { etm = etm; text = text.now })) }
{
    put_number::<4>(out, at, etm);
    put_part(
        out,
        at + 4,
        text,
        Part {
            start: 0,
            length: text.len(),
        },
    );
}
