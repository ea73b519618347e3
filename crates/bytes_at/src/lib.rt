// Fields of a byte slice and steps within a container: every index, cast and sum of offsets stands
// here, so that the walks above have none.
#![tactic(auto)]

ghost use Rattle.std.specs.Prelude.{◌≡◌, ℕ, [], ◌∷◌, ◌-◌, ◌*◌, ◌<◌};
ghost use Rattle.bytes_at.specs.Bits.{bits_at};
ghost use Rattle.bytes_at.specs.Fields.{byte_at, word_at};
ghost use Rattle.bytes_at.specs.Inner.{long_at};
ghost use Rattle.bytes_at.specs.Walks.{Walk, skip_to, fields_to, many, ends};

// Where a walk stands, or the offset of the field that is to blame.
pub type Walk = Result<usize, usize>;

// A byte, and two and four of them as one number, by their bytes and by their bits: 0 past the end.
pub fn byte(s: &[u8], i: usize) -> usize
    ensures { (result ≡ byte_at s.now i) × ((result < 256) × (bits_at s.now (8 * i) 8 ≡ result)) }
{
    if i < s.len() { s[i] as usize } else { 0 }
}

pub fn word(s: &[u8], i: usize) -> usize
    ensures { (result ≡ word_at s.now i) × ((result < 65536) × (bits_at s.now (8 * i) 16 ≡ result)) }
{
    if i < s.len() {
        byte(s, i) * 256 + byte(s, i + 1)
    } else {
        0
    }
}

pub fn long(s: &[u8], i: usize) -> usize
    ensures { (result ≡ long_at s.now i) × ((result < 4294967296) × (bits_at s.now (8 * i) 32 ≡ result)) }
{
    if i < s.len() {
        word(s, i) * 65536 + word(s, i + 2)
    } else {
        0
    }
}

// The byte k before the place b: a walk that has passed a field reads it from behind.
pub fn back(s: &[u8], b: usize, k: usize) -> usize
    ensures { (result ≡ byte_at s.now (b - k)) × (result < 256) }
{
    byte(s, b.saturating_sub(k))
}

// The 16-bit field before the place b.
pub fn word_back(s: &[u8], b: usize) -> usize
    ensures { (result ≡ word_at s.now (b - 2)) × (result < 65536) }
{
    word(s, b.saturating_sub(2))
}

// n times a step, from a place on.
pub fn repeated<F: Fn(usize) -> Walk>(n: usize, from: usize, step: F) -> Walk
    requires { F.IsAlwaysCallable step }
    ensures { (p : ℕ → Walk) → ((a : ℕ) (w : Walk) → F.post step a w → w ≡ p a) → result ≡ many p n from }
{
    let mut at = from;
    for _ in 0..n {
        at = step(at)?;
    }
    Ok(at)
}

// Past n bytes, if the container, which ends at `end`, has them; else the field `back` bytes before
// is to blame.
pub fn skip(back: usize, at: usize, n: usize, end: usize) -> Walk
    ensures { result ≡ skip_to back at n end }
{
    if at <= end && n <= end - at {
        Ok(at + n)
    } else {
        Err(at.saturating_sub(back))
    }
}

// A count that may not be 0 and stands `back` bytes before: it is itself to blame.
pub fn zero_count(back: usize, at: usize) -> Walk
    ensures { result ≡ Err (at - back) }
{
    Err(at.saturating_sub(back))
}

fn wide(x: u8) -> usize
    ensures { (result ≡ x) × (result < 256) }
{
    x as usize
}

// Past a head of four fields of a, b, c and d bits.
pub fn skip_fields(at: usize, a: u8, b: u8, c: u8, d: u8, end: usize) -> Walk
    ensures { result ≡ fields_to (a ∷ b ∷ c ∷ d ∷ []) at end }
{
    if end < at {
        return Err(at);
    }
    let there = end - at;
    let p = wide(a);
    if there < (p + 7) / 8 {
        return Err(at);
    }
    let q = p + wide(b);
    if there < (q + 7) / 8 {
        return Err(at + p / 8);
    }
    let r = q + wide(c);
    if there < (r + 7) / 8 {
        return Err(at + q / 8);
    }
    let t = r + wide(d);
    if there < (t + 7) / 8 {
        return Err(at + r / 8);
    }
    Ok(at + t / 8)
}

// Whether a walk stands at its container's end.
pub fn at_end(at: usize, end: usize) -> Walk
    ensures { result ≡ ends end at }
{
    if at == end { Ok(at) } else { Err(at) }
}
