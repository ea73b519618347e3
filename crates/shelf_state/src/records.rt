// The records, narrow, and keys: how they are kept, made and compared.
//
// `live`, `heard` and `used` stand beside what they speak of, and not around it as an `Option`: a shelf is what every call takes, and one whose closed
// records and free places still hold numbers may be given. In lent memory the numbers lie so too.
ghost use Rattle.std.proofs.Common.{rules};
ghost use Rattle.std.specs.Cmp.Rules.{comparing};
ghost use Rattle.std.specs.Prelude.{◌≡◌, ◌<◌, ◌==◌, ◌&&◌};
ghost use Rattle.shelf_state.specs.Records.{asked, same_key, is_of, holds_for, holds};
ghost use Rattle.shelf_state.specs.Searches.{key_of};

// A watch's key as its record keeps it.
#[repr(C)]
#[derive(Clone, Copy)]
pub struct Key {
    pub pid: u16,
    pub table_id: u8,
    pub extension: u16,
}

// So kept keys are compared where every key is; a derived `==` would be a second place.
impl PartialEq for Key {
    ghost eq = { λ a b. a.pid == b.pid && (a.table_id == b.table_id && a.extension == b.extension) };

    ghost laws = { Prim.search (comparing, rules) };

    #[tactic(auto, using(logic::proofs::TestLaws::joined), unfolding(crate::specs::Records::same_key))]
    fn eq(&self, other: &Key) -> bool {
        same_key(*self, asked_of(*other))
    }
}

// A key as a call names it: a type of its own, and wide, so that numbers out of range can be named.
#[derive(Clone, Copy, PartialEq)]
pub struct Asked {
    pub pid: usize,
    pub table_id: usize,
    pub extension: u16,
}

// The edition that a watch collects: none where nothing has been heard.
#[derive(Clone, Copy, PartialEq)]
pub struct Edition {
    pub heard: bool,
    pub version: u8,
    pub last: u8,
}

#[derive(Clone, Copy, PartialEq)]
pub struct Watch {
    pub live: bool,
    pub key: Key,
    pub quota: u8,
    pub edition: Edition,
}

// A place, free or with a section of a watch.
#[derive(Clone, Copy, PartialEq)]
pub struct Place {
    pub used: bool,
    pub watch: u8,
    pub number: u8,
    pub length: u16,
}

// Of the arrays, the first `records` watches and the first `count` places are in use.
#[derive(Clone, Copy, PartialEq)]
pub struct Shelf {
    pub watches: [Watch; 16],
    pub records: usize,
    pub places: [Place; 64],
    pub count: usize,
}

// A byte as a number, and that it is a byte's: of a field in an array's element nothing else says so.
pub fn wide(x: u8) -> usize
    ensures { (result ≡ x) × (result < 256) }
{
    x as usize
}

pub fn asked_of(k: Key) -> Asked
    ensures { result ≡ asked k }
{
    Asked {
        pid: usize::from(k.pid),
        table_id: usize::from(k.table_id),
        extension: k.extension,
    }
}

// The record of a key: the one place where a key is made for keeping.
pub fn key_of(a: Asked) -> Key
    requires { (a.pid < 65536) × (a.table_id < 256) }
    ensures { result ≡ key_of a }
{
    Key {
        pid: a.pid as u16,
        table_id: a.table_id as u8,
        extension: a.extension,
    }
}

// The one place where keys are compared.
#[tactic(auto, using(logic::proofs::TestLaws::joined), unfolding(crate::specs::Records::same_key))]
pub fn same_key(k: Key, a: Asked) -> bool
    ensures { result ≡ same_key (asked k) a }
{
    asked_of(k) == a
}

// Whether this is an open watch with the key.
#[tactic(auto, using(logic::proofs::TestLaws::joined), unfolding(crate::specs::Records::is_of))]
pub fn is_of(w: Watch, a: Asked) -> bool
    ensures { result ≡ is_of w a }
{
    w.live && same_key(w.key, a)
}

#[tactic(auto, using(logic::proofs::TestLaws::joined), unfolding(crate::specs::Records::holds_for))]
pub fn holds_for(p: Place, w: usize) -> bool
    ensures { result ≡ holds_for p w }
{
    p.used && usize::from(p.watch) == w
}

#[tactic(auto, using(logic::proofs::TestLaws::joined), unfolding(crate::specs::Records::holds))]
pub fn holds_section(p: Place, w: usize, number: usize) -> bool
    ensures { result ≡ holds p w number }
{
    holds_for(p, w) && usize::from(p.number) == number
}
