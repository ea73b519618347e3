// What a call tells C: a refusal's number, and numbers in lent memory.
ghost use Rattle.std.specs.Prelude.{◌≡◌, map, [], ◌∷◌};
ghost use Rattle.refusal.specs.Numbers.{number_of};
ghost use Rattle.telling.specs.Told.{noted};

use refusal::Refusal;

// What stands where there is no value: a blank is not a nought.
pub const NO_VALUE: usize = 0xffff_ffff;

pub fn number_of(k: Refusal) -> u32
    ensures { result ≡ number_of k }
{
    k.number() as u32
}

// A number that C gives, as the library takes it.
pub fn wide(x: u32) -> usize
    ensures { result ≡ x }
{
    x as usize
}

// A number as it is told.
pub fn note(x: usize) -> u32
    ensures { result ≡ noted x }
{
    if x < NO_VALUE { x as u32 } else { 0xffff_ffff }
}

// The numbers of a result, as they are told.
pub fn one(a: usize) -> [u32; 1]
    ensures { result ≡ map noted (a ∷ []) }
{
    [note(a)]
}

pub fn two(a: usize, b: usize) -> [u32; 2]
    ensures { result ≡ map noted (a ∷ b ∷ []) }
{
    [note(a), note(b)]
}

pub fn three(a: usize, b: usize, c: usize) -> [u32; 3]
    ensures { result ≡ map noted (a ∷ b ∷ c ∷ []) }
{
    [note(a), note(b), note(c)]
}

pub fn four(a: usize, b: usize, c: usize, d: usize) -> [u32; 4]
    ensures { result ≡ map noted (a ∷ b ∷ c ∷ d ∷ []) }
{
    [note(a), note(b), note(c), note(d)]
}
