// Writing an EIT or an ETT section.
ghost use Rattle.std.specs.Prelude.{◌≡◌, length};
ghost use Rattle.refusal.specs.Outputs.{counted, output_after};
ghost use Rattle.telling.specs.Told.{Told, one_number};
ghost use Rattle.telling.specs.Writers.{eit_from, ett_from};

// An EIT: a row of eight numbers for each event, with places in `bytes`.
#[unsafe(no_mangle)]
pub extern "C" fn guide_write_eit(
    given: &[u32; 6],
    rows: &[u32],
    bytes: &[u8],
    out: &mut [u8],
    told: &mut [u32; 1],
) -> u32
    ensures answers { Told one_number (counted (eit_from given.now rows.now bytes.now (length out.old))) told.old result told.new }
    ensures writes { out.new ≡ output_after out.old (eit_from given.now rows.now bytes.now (length out.old)) }
{
    guide::writers::guide_write_eit(given, rows, bytes, out, told)
}

// An ETT: its text as bytes.
#[unsafe(no_mangle)]
pub extern "C" fn guide_write_ett(
    given: &[u32; 6],
    text: &[u8],
    out: &mut [u8],
    told: &mut [u32; 1],
) -> u32
    ensures answers { Told one_number (counted (ett_from given.now text.now (length out.old))) told.old result told.new }
    ensures writes { out.new ≡ output_after out.old (ett_from given.now text.now (length out.old)) }
{
    guide::writers::guide_write_ett(given, text, out, told)
}
