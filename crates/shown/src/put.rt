// Putting bytes, words and numbers into an output. Each function takes the place where it begins and answers the next one; what has no
// room is left out, so that no caller need know how long a line is.
ghost use Rattle.std.specs.Prelude.{◌≡◌, [], ◌∷◌, ℕ, ◌/◌, ◌%◌, ◌<◌, min};
ghost use Rattle.refusal.specs.Numbers.{number_of};
ghost use Rattle.shown.specs.Ascii.{digit, decimal, decimal_by, field};
ghost use Rattle.shown.specs.Output.{Put};

use refusal::Refusal;

pub fn put(out: &mut [u8], n: usize, b: u8) -> usize
    ensures { Put (b ∷ []) out.old n result out.new }
{
    if n < out.len() {
        out[n] = b;
        return n + 1;
    }
    out.len()
}

pub fn put_all(out: &mut [u8], n: usize, bytes: &[u8]) -> usize
    ensures { Put bytes.now out.old n result out.new }
{
    let mut m = out.len().min(n);
    for b in bytes {
        m = put(out, m, *b);
    }
    m
}

fn digit_of(x: usize) -> u8
    requires { x < 10 }
    ensures { result ≡ digit x }
{
    b'0' + x as u8
}

// Two digits, of which the first may be 0.
fn put_pair(out: &mut [u8], n: usize, x: usize) -> usize
    requires { x < 100 }
    ensures { Put (digit (x / 10) ∷ digit (x % 10) ∷ []) out.old n result out.new }
{
    let m = put(out, n, digit_of(x / 10));
    put(out, m, digit_of(x % 10))
}

// The digits before the last two are those of a hundredth: a call for two digits, since a call costs more than a digit.
fn put_digits(out: &mut [u8], n: usize, x: usize) -> usize
    ensures { (most : ℕ) → x < most → Put (decimal_by most x) out.old n result out.new }
{
    if x < 10 {
        return put(out, n, digit_of(x));
    }
    if x < 100 {
        return put_pair(out, n, x);
    }
    let m = put_digits(out, n, x / 100);
    put_pair(out, m, x % 100)
}

pub fn put_number(out: &mut [u8], n: usize, x: usize) -> usize
    ensures { Put (decimal x) out.old n result out.new }
{
    put_digits(out, n, x)
}

pub fn put_field(out: &mut [u8], n: usize, word: &[u8], x: usize) -> usize
    ensures { Put (field word.now x) out.old n result out.new }
{
    let m = put_all(out, n, word);
    put_number(out, m, x)
}

// A refusal's number, to be put.
pub fn number_of(k: Refusal) -> usize
    ensures { result ≡ number_of k }
{
    k.number() as usize
}
