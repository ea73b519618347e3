// Which text of a section four numbers ask for.
ghost use Rattle.std.specs.Prelude.{◌≡◌};
ghost use Rattle.telling.specs.Texts.{text_of, which_of};

use crate::told::wide;
use section_text::Which;

// The kinds by their numbers: `enum guide_text_kind` of guide.h.
fn text_of(kind: u32, i: usize, j: usize) -> Option<Which>
    ensures { result ≡ text_of kind i j }
{
    match kind {
        1 => Some(Which::Title(i)),
        2 => Some(Which::Advisory(i, j)),
        3 => Some(Which::Extended),
        4 => Some(Which::RegionName),
        5 => Some(Which::DimensionName(i)),
        6 => Some(Which::ShortText(i, j)),
        7 => Some(Which::LongText(i, j)),
        _ => None,
    }
}

pub fn which_of(which: &[u32; 4]) -> Option<Which>
    ensures { result ≡ which_of which.now }
{
    text_of(which[0], wide(which[1]), wide(which[2]))
}
