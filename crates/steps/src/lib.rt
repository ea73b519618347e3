// The step tables of annex C: where four bits lead from the root of each prior symbol's tree, in one look. They stand beside the
// trees, which alone say what the codes mean, and are read where they lie, as those are.
#![tactic(auto)]

mod type1;
mod type2;

ghost use Rattle.std.specs.Prelude.{◌≡◌, ◌<◌, get_or};
ghost use Rattle.trees.specs.Which.{table_of};
ghost use Rattle.steps.specs.Steps.{step_table};
ghost use Rattle.steps.specs.Words.{step_words};

fn row(titles: bool, i: usize) -> u64
    ensures { result ≡ get_or (step_words titles) i 0 }
{
    if titles { type1::row(i) } else { type2::row(i) }
}

// Entry i, and 0 past the end.
pub fn step_of(titles: bool, i: usize) -> usize
    ensures { (result ≡ get_or (step_table (table_of titles)) i 0) × (result < 4096) }
{
    ((row(titles, i / 4) >> (16 * (i % 4))) % 4096) as usize
}
