// Judging a section.
ghost use Rattle.kind.specs.Kinds.{kind_of};
ghost use Rattle.section.specs.Answers.{verdict_by};
ghost use Rattle.section.specs.Sections.{section_by};
ghost use Rattle.telling.specs.Told.{Told, one_number};
ghost use Rattle.telling.specs.Sections.{header_numbers, fault_of};

// The header of a section of any of the kinds.
#[unsafe(no_mangle)]
pub extern "C" fn guide_judge(s: &[u8], header: &mut [u32; 6]) -> u32
    ensures { Told header_numbers (section_by kind_of s.now) header.old result header.new }
{
    guide::sections::guide_judge(s, header)
}

// Where its body fails.
#[unsafe(no_mangle)]
pub extern "C" fn guide_fault(s: &[u8], offset: &mut [u32; 1]) -> u32
    ensures { Told one_number (fault_of (verdict_by kind_of s.now)) offset.old result offset.new }
{
    guide::sections::guide_fault(s, offset)
}
