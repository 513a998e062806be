// One record of a file: the checks of its form and of its fields, document 01's numbers 1 to 5, each with its offset.
#![tactic(auto)]

ghost use Rattle.std.specs.Prelude.{◌≡◌};
ghost use Rattle.record.specs.Fault.{fault_number, unless};

pub mod fields;
pub mod form;

// What is wrong with a file; document 01 numbers these from 1 in this order.
#[derive(Clone, Copy, Debug, PartialEq, Eq)]
pub enum FaultKind {
    Length = 1,
    Order = 2,
    Size = 3,
    Range = 4,
    Rising = 5,
    Inexact = 6,
    Rows = 7,
    TooLong = 8,
}

// A fault, and the offset of the record that has it.
#[derive(Clone, Copy, Debug, PartialEq, Eq)]
pub struct Fault {
    pub kind: FaultKind,
    pub offset: usize,
}

impl FaultKind {
    // The number that document 01 gives it.
    pub fn number(self) -> usize
        ensures { result ≡ fault_number self }
    {
        self as usize
    }

    // This fault, at an offset, unless a test holds.
    pub fn unless(self, holds: bool, offset: usize) -> Result<(), Fault>
        ensures { result ≡ unless holds self offset }
    {
        if holds {
            Ok(())
        } else {
            Err(Fault { kind: self, offset })
        }
    }
}
