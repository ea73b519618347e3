// What is asked of an event, or of its descriptor list by itself.
ghost use Rattle.reading.specs.Eits.{rating_of, descriptor_of, advisory_text_of, list_rating, list_descriptor, list_text};
ghost use Rattle.telling.specs.Told.{Told};
ghost use Rattle.telling.specs.Ratings.{rating_numbers, descriptor_numbers, text_numbers};

// The rating of event i for a region and a dimension.
#[unsafe(no_mangle)]
pub extern "C" fn guide_rating(
    s: &[u8],
    i: u32,
    region: u32,
    dimension: u32,
    told: &mut [u32; 2],
) -> u32
    ensures { Told rating_numbers (rating_of s.now i region dimension) told.old result told.new }
{
    guide::ratings::guide_rating(s, i, region, dimension, told)
}

// Descriptor k of event i.
#[unsafe(no_mangle)]
pub extern "C" fn guide_descriptor(s: &[u8], i: u32, k: u32, told: &mut [u32; 3]) -> u32
    ensures { Told descriptor_numbers (descriptor_of s.now i k) told.old result told.new }
{
    guide::ratings::guide_descriptor(s, i, k, told)
}

// The text of event i's advisory for a region.
#[unsafe(no_mangle)]
pub extern "C" fn guide_advisory(s: &[u8], i: u32, region: u32, told: &mut [u32; 2]) -> u32
    ensures { Told text_numbers (advisory_text_of s.now i region) told.old result told.new }
{
    guide::ratings::guide_advisory(s, i, region, told)
}

// The rating by a list.
#[unsafe(no_mangle)]
pub extern "C" fn guide_list_rating(
    list: &[u8],
    region: u32,
    dimension: u32,
    told: &mut [u32; 2],
) -> u32
    ensures { Told rating_numbers (list_rating list.now region dimension) told.old result told.new }
{
    guide::ratings::guide_list_rating(list, region, dimension, told)
}

// Descriptor k of a list.
#[unsafe(no_mangle)]
pub extern "C" fn guide_list_descriptor(list: &[u8], k: u32, told: &mut [u32; 3]) -> u32
    ensures { Told descriptor_numbers (list_descriptor list.now k) told.old result told.new }
{
    guide::ratings::guide_list_descriptor(list, k, told)
}

// The text of a list's advisory for a region.
#[unsafe(no_mangle)]
pub extern "C" fn guide_list_advisory(list: &[u8], region: u32, told: &mut [u32; 2]) -> u32
    ensures { Told text_numbers (list_text list.now region) told.old result told.new }
{
    guide::ratings::guide_list_advisory(list, region, told)
}
