// What is asked of an event, or of its descriptor list by itself.
ghost use Rattle.reading.specs.Eits.{rating_of, descriptor_of, advisory_text_of, list_rating, list_descriptor, list_text};
ghost use Rattle.telling.specs.Told.{Told};
ghost use Rattle.telling.specs.Ratings.{rating_numbers, descriptor_numbers, text_numbers};

use reading::eits::{advisory_text, descriptor, list_descriptor, list_rating, list_text, rating};
use telling::ratings::{tell_descriptor, tell_rating, tell_text};
use telling::told::wide;

// The rating of event i for a region and a dimension.
pub fn guide_rating(s: &[u8], i: u32, region: u32, dimension: u32, told: &mut [u32; 2]) -> u32
    ensures { Told rating_numbers (rating_of s.now i region dimension) told.old result told.new }
{
    tell_rating(rating(s, wide(i), wide(region), wide(dimension)), told)
}

// Descriptor k of event i.
pub fn guide_descriptor(s: &[u8], i: u32, k: u32, told: &mut [u32; 3]) -> u32
    ensures { Told descriptor_numbers (descriptor_of s.now i k) told.old result told.new }
{
    tell_descriptor(descriptor(s, wide(i), wide(k)), told)
}

// The text of event i's advisory for a region.
pub fn guide_advisory(s: &[u8], i: u32, region: u32, told: &mut [u32; 2]) -> u32
    ensures { Told text_numbers (advisory_text_of s.now i region) told.old result told.new }
{
    tell_text(advisory_text(s, wide(i), wide(region)), told)
}

// The rating by a list.
pub fn guide_list_rating(list: &[u8], region: u32, dimension: u32, told: &mut [u32; 2]) -> u32
    ensures { Told rating_numbers (list_rating list.now region dimension) told.old result told.new }
{
    tell_rating(list_rating(list, wide(region), wide(dimension)), told)
}

// Descriptor k of a list.
pub fn guide_list_descriptor(list: &[u8], k: u32, told: &mut [u32; 3]) -> u32
    ensures { Told descriptor_numbers (list_descriptor list.now k) told.old result told.new }
{
    tell_descriptor(list_descriptor(list, wide(k)), told)
}

// The text of a list's advisory for a region.
pub fn guide_list_advisory(list: &[u8], region: u32, told: &mut [u32; 2]) -> u32
    ensures { Told text_numbers (list_text list.now region) told.old result told.new }
{
    tell_text(list_text(list, wide(region)), told)
}
