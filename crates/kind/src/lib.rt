// The table kinds: what the table of SCOPE 1.5 says of each, in constants of the type.
#![tactic(auto)]

ghost use Rattle.std.specs.Prelude.{◌≡◌};
ghost use Rattle.kind.specs.Kinds.{limits_of, table_id_of, kind_of, only_of};

use refusal::Refusal;

#[derive(Clone, Copy)]
pub enum Kind {
    Mgt,
    Tvct,
    Rrt,
    Eit,
    Ett,
}

// The range of section_length, the largest last_section_number, the offset of the byte that must be 0
// and the refusal where it is not, the offset of the body's first byte, and whether a watch may be
// opened on the kind.
#[derive(Clone, Copy)]
pub struct Limits {
    pub smallest: usize,
    pub largest: usize,
    pub last: usize,
    pub zero_byte: usize,
    pub zero_refusal: Refusal,
    pub body: usize,
    pub watched: bool,
}

impl Kind {
    pub const MGT: usize = 0xC7;

    pub const TVCT: usize = 0xC8;

    pub const RRT: usize = 0xCA;

    pub const EIT: usize = 0xCB;

    pub const ETT: usize = 0xCC;

    pub const MGT_LIMITS: Limits = Limits {
        smallest: 14,
        largest: 4093,
        last: 0,
        zero_byte: 8,
        zero_refusal: Refusal::ProtocolVersion,
        body: 9,
        watched: true,
    };

    pub const TVCT_LIMITS: Limits = Limits {
        smallest: 13,
        largest: 1021,
        last: 255,
        zero_byte: 8,
        zero_refusal: Refusal::ProtocolVersion,
        body: 9,
        watched: true,
    };

    pub const RRT_LIMITS: Limits = Limits {
        smallest: 18,
        largest: 1021,
        last: 0,
        zero_byte: 8,
        zero_refusal: Refusal::ProtocolVersion,
        body: 9,
        watched: true,
    };

    pub const EIT_LIMITS: Limits = Limits {
        smallest: 11,
        largest: 4093,
        last: 255,
        zero_byte: 8,
        zero_refusal: Refusal::ProtocolVersion,
        body: 9,
        watched: true,
    };

    pub const ETT_LIMITS: Limits = Limits {
        smallest: 15,
        largest: 4093,
        last: 0,
        zero_byte: 8,
        zero_refusal: Refusal::ProtocolVersion,
        body: 9,
        watched: true,
    };

    pub fn limits(self) -> Limits
        ensures { result ≡ limits_of self }
    {
        match self {
            Kind::Mgt => Kind::MGT_LIMITS,
            Kind::Tvct => Kind::TVCT_LIMITS,
            Kind::Rrt => Kind::RRT_LIMITS,
            Kind::Eit => Kind::EIT_LIMITS,
            Kind::Ett => Kind::ETT_LIMITS,
        }
    }

    pub fn table_id(self) -> usize
        ensures { result ≡ table_id_of self }
    {
        match self {
            Kind::Mgt => Kind::MGT,
            Kind::Tvct => Kind::TVCT,
            Kind::Rrt => Kind::RRT,
            Kind::Eit => Kind::EIT,
            Kind::Ett => Kind::ETT,
        }
    }

    // For a call that reads every kind.
    pub fn of(id: usize) -> Option<Kind>
        ensures { result ≡ kind_of id }
    {
        match id {
            Kind::MGT => Some(Kind::Mgt),
            Kind::TVCT => Some(Kind::Tvct),
            Kind::RRT => Some(Kind::Rrt),
            Kind::EIT => Some(Kind::Eit),
            Kind::ETT => Some(Kind::Ett),
            _ => None,
        }
    }

    // For a call that reads this kind alone.
    pub fn only(self, id: usize) -> Option<Kind>
        ensures { result ≡ only_of self id }
    {
        if id == self.table_id() {
            Some(self)
        } else {
            None
        }
    }
}
