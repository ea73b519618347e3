// The decode tables of annex C as constants, shown to be the lists of specs/ byte by byte. No decoder names them, since a constant
// that a leaf names is stored anew at every call: `trees` has the same bytes by a match, shown to be the same lists.
#![tactic(auto)]

mod type1;
mod type2;

ghost use Rattle.std.specs.Prelude.{◌≡◌};
ghost use Rattle.annex_c.specs.Table1.{table1};
ghost use Rattle.annex_c.specs.Table2.{table2};

// Type 1: titles.
pub fn titles() -> [u8; 1940]
    ensures { result ≡ table1 }
{
    type1::TABLE
}

// Type 2: descriptions.
pub fn descriptions() -> [u8; 1782]
    ensures { result ≡ table2 }
{
    type2::TABLE
}
