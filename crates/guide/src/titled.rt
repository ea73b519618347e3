// All events of an EIT with the text of their titles.
ghost use Rattle.std.specs.Prelude.{◌≡◌, length};
ghost use Rattle.titles.specs.Titles.{titles_of, with_title_rows, with_units};
ghost use Rattle.telling.specs.Told.{Told};
ghost use Rattle.telling.specs.Titled.{counts_numbers};

use telling::titled::tell_counts;
use titles::titles;

// A row for each event, and the units of all titles.
pub fn guide_titles(s: &[u8], rows: &mut [u32], units: &mut [u16], told: &mut [u32; 2]) -> u32
    ensures told { Told counts_numbers (titles_of s.now (length rows.old) (length units.old)) told.old result told.new }
    ensures rows { rows.new ≡ with_title_rows s.now (titles_of s.now (length rows.old) (length units.old)) rows.old }
    ensures units { units.new ≡ with_units s.now (titles_of s.now (length rows.old) (length units.old)) units.old }
{
    tell_counts(titles(s, rows, units), told)
}
