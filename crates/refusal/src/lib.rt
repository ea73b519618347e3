// The refusals of SCOPE 6, by name, and the number that its table gives each.
#![tactic(auto)]

ghost use Rattle.std.specs.Prelude.{◌≡◌};
ghost use Rattle.refusal.specs.Numbers.{number_of};

#[derive(Clone, Copy)]
pub enum Refusal {
    TooShort,
    OtherTable,
    Indicator,
    LengthRange,
    ByteCount,
    Checksum,
    ProtocolVersion,
    SectionNumber,
    Body,
    NotAReadPair,
    BrokenText,
    OutputShort,
    NoSuchEntry,
    ShelfBroken,
    OutOfRange,
    NotCurrent,
    NotWatched,
    AboveQuota,
    AlreadyWatched,
    NoRecordLeft,
    NoPlacesLeft,
    NotHeld,
    FieldTooLarge,
    SectionTooLong,
}

impl Refusal {
    // The number of SCOPE 6.
    pub fn number(self) -> u8
        ensures { result ≡ number_of self }
    {
        match self {
            Refusal::TooShort => 1,
            Refusal::OtherTable => 2,
            Refusal::Indicator => 3,
            Refusal::LengthRange => 4,
            Refusal::ByteCount => 5,
            Refusal::Checksum => 6,
            Refusal::ProtocolVersion => 7,
            Refusal::SectionNumber => 8,
            Refusal::Body => 9,
            Refusal::NotAReadPair => 10,
            Refusal::BrokenText => 11,
            Refusal::OutputShort => 12,
            Refusal::NoSuchEntry => 13,
            Refusal::ShelfBroken => 14,
            Refusal::OutOfRange => 15,
            Refusal::NotCurrent => 16,
            Refusal::NotWatched => 17,
            Refusal::AboveQuota => 18,
            Refusal::AlreadyWatched => 19,
            Refusal::NoRecordLeft => 20,
            Refusal::NoPlacesLeft => 21,
            Refusal::NotHeld => 22,
            Refusal::FieldTooLarge => 23,
            Refusal::SectionTooLong => 24,
        }
    }
}
