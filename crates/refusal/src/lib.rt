// The numbers under which document 01 refuses a call.
#![tactic(auto)]

ghost use Rattle.std.specs.Prelude.{◌≡◌};
ghost use Rattle.refusal.specs.Refusal.{number_of};

// Why a call is refused: what it is lent or asked is unfit. Each has document 01's number.
#[derive(Clone, Copy, Debug, PartialEq, Eq)]
pub enum Refusal {
    // A lent buffer is too short.
    Short = 9,
    // There are over 512 atoms or rows, or the rank is above 512.
    Overfull = 10,
    // A bit stands at or above n, or a constant above 1.
    Stray = 11,
    // An atom is held and cut.
    Clash = 12,
    // The rank is above min(m, n), or a basis entry names no row.
    Basis = 13,
    // An index bit stands at or above the rank.
    Index = 14,
    // Atom counts differ.
    Unequal = 15,
    // Old decisions are missing from the region.
    Missing = 16,
    // A table has k above 8 or the wrong length.
    Table = 17,
    // An atom is not below n.
    Atom = 18,
}

impl Refusal {
    // The number that document 01 gives it. (No From: that it is this number, the name says.)
    pub fn number(self) -> usize
        ensures { result ≡ number_of self }
    {
        self as usize
    }
}
