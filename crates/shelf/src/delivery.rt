// Delivering a section: judge it, find its watch, drop another edition's sections, take its place, store its bytes.
ghost use Rattle.std.specs.Prelude.{◌≡◌, true, ◌+◌, ◌*◌, ◌≤◌, ◌<◌, length};
ghost use Rattle.std.proofs.Math.Seq.{paste};
ghost use Rattle.refusal.specs.Outcomes.{outcome};
ghost use Rattle.shelf.specs.Answers.{after};
ghost use Rattle.shelf.specs.Inner.{dropped_below, going, Ready};
ghost use Rattle.shelf.specs.Delivery.{owner_in, hearing, edited, place_for, keeping, received_at, delivering, delivered, area_after, quiet};
ghost use Rattle.shelf.specs.Views.{judged, key_in, edition_of, same_edition};

use crate::answers::After;
use bytes_at::{byte, word};
use refusal::Refusal;
use section::{Header, judge_any};
use shelf_state::inner::{
    find_place, find_watch, free_place, places_in_use, released, watches_in_use,
};
use shelf_state::{Asked, Edition, Place, Shelf, Watch, obeys_rules};

// The watch that a section goes to, and the section's header.
#[derive(Clone, Copy)]
struct Owner {
    watch: usize,
    header: Header,
}

// The tests 1 to 9.
fn judge(section: &[u8]) -> Result<Header, Refusal>
    ensures { outcome result ≡ judged section.now }
{
    judge_any(section)
}

// The key of a section: the one place where a key is made of bytes.
fn key_in(pid: usize, section: &[u8]) -> Asked
    ensures { result ≡ key_in pid section.now }
{
    let extension = word(section, 3);
    Asked {
        pid,
        table_id: byte(section, 0),
        extension: extension as u16,
    }
}

#[tactic(auto, using(logic::proofs::TestLaws::joined), unfolding(crate::specs::Views::same_edition))]
fn same_edition(e: Edition, h: Header) -> bool
    ensures { result ≡ same_edition e h }
{
    e.heard && usize::from(e.version) == h.version && usize::from(e.last) == h.last
}

fn edition_of(h: Header) -> Edition
    requires { (h.version < 256) × (h.last < 256) }
    ensures { result ≡ edition_of h }
{
    Edition {
        heard: true,
        version: h.version as u8,
        last: h.last as u8,
    }
}

fn hear(w: Watch, h: Header) -> Watch
    requires { (h.version < 256) × (h.last < 256) }
    ensures { result ≡ hearing w h }
{
    let k = w.key;
    Watch {
        live: w.live,
        key: k,
        quota: w.quota,
        edition: edition_of(h),
    }
}

// 16, 17 and 18, or the watch.
fn find_owner(s: &Shelf, a: Asked, h: Header) -> Result<usize, Refusal>
    requires { s.now.records ≤ 16 }
    ensures { outcome result ≡ owner_in s.now.watches s.now.records a h }
{
    if h.current == 0 {
        return Err(Refusal::NotCurrent);
    }
    let w = find_watch(watches_in_use(s), a);
    if w >= s.records {
        return Err(Refusal::NotWatched);
    }
    let x = s.watches[w];
    if h.last >= usize::from(x.quota) {
        return Err(Refusal::AboveQuota);
    }
    Ok(w)
}

// How many places are searched for the watch's sections, to drop them: all where the edition is another.
fn dropped_below(e: Edition, h: Header, places: usize) -> usize
    ensures { (result ≡ dropped_below e h places) × (result ≤ places) }
{
    if same_edition(e, h) { 0 } else { places }
}

// The place with the section of this number, or the lowest free one.
fn place_for(s: &Shelf, w: usize, number: usize) -> usize
    requires { s.now.count ≤ 64 }
    ensures { result ≡ place_for s.now w number }
{
    let ps = places_in_use(s);
    let i = find_place(ps, w, number);
    if i < s.count {
        return i;
    }
    free_place(ps)
}

// A place's record.
fn place_record(w: usize, number: usize, length: usize) -> Place
    requires { (w < 256) × (number < 256) × (length < 65536) }
    ensures { result ≡ keeping w number length }
{
    Place {
        used: true,
        watch: w as u8,
        number: number as u8,
        length: length as u16,
    }
}

// The bytes, from a place of the area on. `copy_from_slice` would call `memmove`, which a program that links the library need not have.
fn store(area: &mut [u8], at: usize, bytes: &[u8])
    requires { at + length bytes.now ≤ length area.old }
    ensures { area.new ≡ paste area.old at bytes.now (length bytes.now) }
{
    for i in 0..bytes.len() {
        area[at + i] = bytes[i];
    }
}

// The edition of a section is heard: another edition's sections are dropped. The shelf is changed where it stands, since copies of it cost stack.
fn edit(t: &mut Shelf, w: usize, h: Header)
    requires { (w < 16) × (t.old.count ≤ 64) × (h.version < 256) × (h.last < 256) }
    ensures { t.new ≡ edited t.old w h }
{
    let x = t.watches[w];
    let n = dropped_below(x.edition, h, t.count);
    t.watches[w] = hear(x, h);
    for j in 0..n {
        t.places[j] = released(t.places[j], w);
    }
}

// A section is kept by its watch.
fn receive(s: Shelf, area: &mut [u8], w: usize, h: Header, bytes: &[u8]) -> After<()>
    requires { Ready s w h (length area.old) (length bytes.now) }
    ensures answer { after result ≡ quiet (received_at s w h (length bytes.now)) }
    ensures stored { area.new ≡ area_after area.old bytes.now (received_at s w h (length bytes.now)).outcome }
{
    let mut t = s;
    edit(&mut t, w, h);
    let i = place_for(&t, w, h.number);
    t.places[i] = place_record(w, h.number, bytes.len());
    store(area, i * 4096, bytes);
    After {
        answer: Ok(()),
        shelf: t,
    }
}

// 14, 15, 1 to 9, 16, 17 and 18, or the watch.
fn owner_of(s: &Shelf, area: &[u8], pid: usize, section: &[u8]) -> Result<Owner, Refusal>
    ensures { outcome result ≡ going s.now (length area.now) pid section.now }
{
    if !obeys_rules(s, area) {
        return Err(Refusal::ShelfBroken);
    }
    if pid > 8191 {
        return Err(Refusal::OutOfRange);
    }
    let header = judge(section)?;
    let watch = find_owner(s, key_in(pid, section), header)?;
    Ok(Owner { watch, header })
}

pub fn deliver(s: Shelf, area: &mut [u8], pid: usize, section: &[u8]) -> After<()>
    ensures answer { after result ≡ delivered s (length area.old) pid section.now }
    ensures stored { area.new ≡ area_after area.old section.now (delivering s (length area.old) pid section.now).outcome }
{
    match owner_of(&s, area, pid, section) {
        Err(k) => After {
            answer: Err(k),
            shelf: s,
        },
        Ok(o) => receive(s, area, o.watch, o.header, section),
    }
}
