// The decode tables of annex C, read where they lie: the compiler makes a table in read-only memory of a match on a dense number,
// while a constant is stored anew wherever it is named. A match of so many arms is compiled into its caller only where it has one,
// so each is called from one place, and the offsets of the trees have matches of their own.
#![tactic(auto)]

mod type1;
mod type2;

ghost use Rattle.std.specs.Prelude.{◌≡◌, ◌<◌, get_or, take};
ghost use Rattle.annex_c.specs.Tree.{root};
ghost use Rattle.trees.specs.Which.{table_of, words_of};

fn row(titles: bool, i: usize) -> u64
    ensures { result ≡ get_or (words_of titles) i 0 }
{
    if titles { type1::row(i) } else { type2::row(i) }
}

fn head(titles: bool, i: usize) -> u64
    ensures { result ≡ get_or (take 64 (words_of titles)) i 0 }
{
    if titles {
        type1::head(i)
    } else {
        type2::head(i)
    }
}

// Byte i of a decode table, and 0 past its end.
pub fn byte_of(titles: bool, i: usize) -> usize
    ensures { (result ≡ get_or (table_of titles) i 0) × (result < 256) }
{
    ((row(titles, i / 8) >> (8 * (i % 8))) % 256) as usize
}

// Where the tree of a prior symbol begins.
pub fn root_of(titles: bool, prior: u8) -> usize
    ensures { (result ≡ root (table_of titles) prior) × (result < 65536) }
{
    let p = prior as usize;
    let w = head(titles, p / 4) >> (16 * (p % 4));
    (256 * (w % 256) + w / 256 % 256) as usize
}
