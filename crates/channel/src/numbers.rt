// A channel as a row of numbers.
ghost use Rattle.std.specs.Prelude.{◌≡◌, ◌+◌, ◌≤◌, length};
ghost use Rattle.std.proofs.lemmas.List.Edits.{sets};
ghost use Rattle.channel.specs.Fields.{name_row, tuning_row, service_row, numbers_row, channel_row, channel_end};

use crate::channel::{Channel, Name, Service, Tuning, channel_at, descriptors_at};
use descriptor::list_end;
use row::{put_all, put_part};

fn put_name(n: Name, p: usize, out: &mut [u32])
    requires { p + 7 ≤ length out.old }
    ensures { out.new ≡ sets out.old p (name_row n) }
{
    put_all(out, p, [n.n0, n.n1, n.n2, n.n3, n.n4, n.n5, n.n6]);
}

fn put_tuning(t: Tuning, p: usize, out: &mut [u32])
    requires { p + 6 ≤ length out.old }
    ensures { out.new ≡ sets out.old p (tuning_row t) }
{
    let numbers = [
        t.major,
        t.minor,
        t.modulation,
        t.carrier,
        t.channel_tsid,
        t.program_number,
    ];
    put_all(out, p, numbers);
}

fn put_service(v: Service, p: usize, out: &mut [u32])
    requires { p + 6 ≤ length out.old }
    ensures { out.new ≡ sets out.old p (service_row v) }
{
    let numbers = [
        v.etm_location,
        v.access_controlled,
        v.hidden,
        v.six_bits,
        v.service_type,
        v.source_id,
    ];
    put_all(out, p, numbers);
}

// All but the descriptors.
fn put_numbers(c: Channel, p: usize, out: &mut [u32])
    requires { p + 19 ≤ length out.old }
    ensures { out.new ≡ sets out.old p (numbers_row c) }
{
    put_name(c.name, p, out);
    put_tuning(c.tuning, p + 7, out);
    put_service(c.service, p + 13, out);
}

// The row of the channel that begins at a, from p on, and where the next one begins.
pub fn put_row(s: &[u8], a: usize, p: usize, out: &mut [u32]) -> usize
    requires { ((a ≤ length s.now) × (length s.now ≤ 4096)) × (p + 21 ≤ length out.old) }
    ensures next { result ≡ channel_end s.now a }
    ensures puts { out.new ≡ sets out.old p (channel_row s.now a) }
{
    put_numbers(channel_at(s, a), p, out);
    put_part(out, p + 19, descriptors_at(s, a));
    list_end(s, 1024, a + 30)
}
