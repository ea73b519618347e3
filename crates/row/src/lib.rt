// A row: the numbers of an entry, of 32 bits each, in a lent list.
#![tactic(auto)]

ghost use Rattle.std.specs.Prelude.{◌≡◌, ◌+◌, ◌<◌, ◌≤◌, length};
ghost use Rattle.std.proofs.lemmas.List.Edits.{sets};
ghost use Rattle.row.specs.Rows.{part_row};

use part::Part;

// A number that fits 32 bits, as such.
pub fn narrow(x: usize) -> u32
    requires { x < 4294967296 }
    ensures { result ≡ x }
{
    x as u32
}

// Several numbers, one after the other from p on.
pub fn put_all<const N: usize>(out: &mut [u32], p: usize, values: [u32; N])
    requires { p + N ≤ length out.old }
    ensures { out.new ≡ sets out.old p values.entry }
{
    out[p..p + N].copy_from_slice(&values);
}

// The two numbers of a part from p on.
pub fn put_part(out: &mut [u32], p: usize, part: Part)
    requires { (p + 2 ≤ length out.old) × ((part.start < 4294967296) × (part.length < 4294967296)) }
    ensures { out.new ≡ sets out.old p (part_row part) }
{
    put_all(out, p, [narrow(part.start), narrow(part.length)]);
}
