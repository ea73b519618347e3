// The fields of a channel that begins at a.
ghost use Rattle.std.specs.Prelude.{◌≡◌, ◌+◌, ◌<◌, ◌≤◌, length};
ghost use Rattle.channel.specs.Fields.{name_at, tuning_at, service_at, descriptors_at, channel_at};

use bytes_at::{byte, long, word};
use descriptor::list_at;
use part::Part;

// The seven 16-bit units of a short name.
#[derive(Clone, Copy)]
pub struct Name {
    pub n0: u32,
    pub n1: u32,
    pub n2: u32,
    pub n3: u32,
    pub n4: u32,
    pub n5: u32,
    pub n6: u32,
}

// The number under which a channel is shown, and where it is sent.
#[derive(Clone, Copy)]
pub struct Tuning {
    pub major: u32,
    pub minor: u32,
    pub modulation: u32,
    pub carrier: u32,
    pub channel_tsid: u32,
    pub program_number: u32,
}

// What is sent there. The six bits are kept as one number.
#[derive(Clone, Copy)]
pub struct Service {
    pub etm_location: u32,
    pub access_controlled: u32,
    pub hidden: u32,
    pub six_bits: u32,
    pub service_type: u32,
    pub source_id: u32,
}

// Its numbers are of 32 bits, as those of a row are.
#[derive(Clone, Copy)]
pub struct Channel {
    pub name: Name,
    pub tuning: Tuning,
    pub service: Service,
    pub descriptors: Part,
}

// Where its descriptors stand.
pub fn descriptors_at(s: &[u8], a: usize) -> Part
    requires { a ≤ length s.now }
    ensures { (result ≡ descriptors_at s.now a) × ((result.start ≤ a + 32) × (result.length < 4096)) }
{
    list_at(s, 1024, a + 30)
}

pub fn channel_at(s: &[u8], a: usize) -> Channel
    requires { a ≤ length s.now }
    ensures { result ≡ channel_at s.now a }
{
    Channel {
        name: name_at(s, a),
        tuning: tuning_at(s, a),
        service: service_at(s, a),
        descriptors: descriptors_at(s, a),
    }
}

fn name_at(s: &[u8], a: usize) -> Name
    requires { a ≤ length s.now }
    ensures { result ≡ name_at s.now a }
{
    Name {
        n0: word(s, a) as u32,
        n1: word(s, a + 2) as u32,
        n2: word(s, a + 4) as u32,
        n3: word(s, a + 6) as u32,
        n4: word(s, a + 8) as u32,
        n5: word(s, a + 10) as u32,
        n6: word(s, a + 12) as u32,
    }
}

fn tuning_at(s: &[u8], a: usize) -> Tuning
    requires { a ≤ length s.now }
    ensures { result ≡ tuning_at s.now a }
{
    Tuning {
        major: (word(s, a + 14) / 4 % 1024) as u32,
        minor: (word(s, a + 15) % 1024) as u32,
        modulation: byte(s, a + 17) as u32,
        carrier: long(s, a + 18) as u32,
        channel_tsid: word(s, a + 22) as u32,
        program_number: word(s, a + 24) as u32,
    }
}

fn service_at(s: &[u8], a: usize) -> Service
    requires { a ≤ length s.now }
    ensures { result ≡ service_at s.now a }
{
    let flags = word(s, a + 26);
    Service {
        etm_location: (flags / 16384) as u32,
        access_controlled: (flags / 8192 % 2) as u32,
        hidden: (flags / 4096 % 2) as u32,
        six_bits: (flags / 64 % 64) as u32,
        service_type: (flags % 64) as u32,
        source_id: word(s, a + 28) as u32,
    }
}
