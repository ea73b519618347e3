// A digest: two sums, of the numbers and of the sums so far. Of bytes it is Adler-32. A checksum register would not do: it cannot
// tell one sound section from another of its length.
#[derive(Clone, Copy)]
pub struct Sums {
    pub numbers: u64,
    pub sums: u64,
}

pub fn none() -> Sums {
    Sums {
        numbers: 1,
        sums: 0,
    }
}

fn more(d: Sums, x: u64) -> Sums {
    let n = d.numbers.wrapping_add(x);
    Sums {
        numbers: n,
        sums: d.sums.wrapping_add(n),
    }
}

pub fn number(d: Sums, x: usize) -> Sums {
    more(d, x as u64)
}

pub fn told(d: Sums) -> usize {
    (d.sums % 65521 * 65536 + d.numbers % 65521) as usize
}

pub fn of_numbers<T: Copy + Into<u64>>(s: &[T]) -> usize {
    told(s.iter().fold(none(), |d, x| more(d, (*x).into())))
}

pub fn of_bytes(s: &[u8]) -> usize {
    of_numbers(s)
}
