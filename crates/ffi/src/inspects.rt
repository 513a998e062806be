// The calls of `region`, `snapshot` and `inspect` for C. `region::mask` is not among them: C picks one of two buffers by itself.
ghost use Rattle.std.specs.Prelude.{◌≡◌};
ghost use Rattle.region.specs.Calls.{undecided_of, hold_of, cut_of};
ghost use Rattle.snapshot.specs.Knowledge.{fresh, publish_of};
ghost use Rattle.snapshot.specs.Touch.{selected_of};
ghost use Rattle.inspect.specs.Inspect.{filled, inspect_of};
ghost use Rattle.ffi.specs.Answers.{atom_number, new_region_answer, decided_answer, published_answer, selected_answer, inspection_of, outcome_answer};

use inspect::{Inspected, NotInspected, Step};
use parity::System;
use refusal::Refusal;
use region::{Answer, Region};
use rows::Atom;
use snapshot::{Ordinals, Snapshot};

// A new region with number 0, or the number under which it is refused. This, `Published` and `Selected` below, `Proposal` of hulls.rt and `Answered` of
// files.rt are each a number and a value, and no one generic struct: C knows their fields by name.
#[repr(C)]
#[derive(Clone, Copy)]
pub struct NewRegion {
    pub number: usize,
    pub region: Region,
}

// A decision: kind 0 taken, 1 same, 2 against, or 3 refused with its number; and the region as it is then.
#[repr(C)]
#[derive(Clone, Copy)]
pub struct Decision {
    pub kind: usize,
    pub number: usize,
    pub region: Region,
}

// Knowledge after a publication, beside the number under which it is refused, or 0.
#[repr(C)]
#[derive(Clone, Copy)]
pub struct Published {
    pub number: usize,
    pub known: Snapshot,
}

// The basis rows that are touched, beside the number under which the call is refused, or 0.
#[repr(C)]
#[derive(Clone, Copy)]
pub struct Selected {
    pub number: usize,
    pub rows: Ordinals,
}

// An inspection: kind 0 unchanged, 1 changed, 2 refuted, or 3 refused with its number; how many atoms it held and cut, how long the
// forced list is, and region and knowledge as they are then.
#[repr(C)]
#[derive(Clone, Copy)]
pub struct Inspection {
    pub kind: usize,
    pub number: usize,
    pub held: usize,
    pub cut: usize,
    pub forced: usize,
    pub region: Region,
    pub known: Snapshot,
}

impl From<Result<Region, Refusal>> for NewRegion {
    ghost from_gives = { λ answer told. told ≡ new_region_answer answer };

    fn from(answer: Result<Region, Refusal>) -> NewRegion {
        match answer {
            Ok(region) => NewRegion { number: 0, region },
            Err(refusal) => NewRegion {
                number: refusal.number(),
                region: Region {
                    atoms: 0,
                    held: [0; 8],
                    cut: [0; 8],
                },
            },
        }
    }
}

impl From<Result<Ordinals, Refusal>> for Selected {
    ghost from_gives = { λ answer told. told ≡ selected_answer answer };

    fn from(answer: Result<Ordinals, Refusal>) -> Selected {
        match answer {
            Ok(rows) => Selected { number: 0, rows },
            Err(refusal) => Selected {
                number: refusal.number(),
                rows: Ordinals { words: [0; 8] },
            },
        }
    }
}

impl From<(Result<Answer, Refusal>, Region)> for Decision {
    ghost from_gives = { λ decided told. told ≡ decided_answer decided };

    fn from((answer, region): (Result<Answer, Refusal>, Region)) -> Decision {
        let (kind, number) = match answer {
            Ok(answer) => (answer as usize, 0),
            Err(refusal) => (3, refusal.number()),
        };
        Decision {
            kind,
            number,
            region,
        }
    }
}

impl From<(Result<(), Refusal>, Snapshot)> for Published {
    ghost from_gives = { λ published told. told ≡ published_answer published };

    fn from((answer, known): (Result<(), Refusal>, Snapshot)) -> Published {
        Published {
            number: crate::number(answer),
            known,
        }
    }
}

impl From<Result<Inspected, NotInspected>> for Inspection {
    ghost from_gives = { λ inspected told. told ≡ inspection_of inspected };

    fn from(inspected: Result<Inspected, NotInspected>) -> Inspection {
        match inspected {
            Ok(inspected) => Inspection {
                kind: inspected.answer as usize,
                number: 0,
                held: inspected.held,
                cut: inspected.cut,
                forced: inspected.forced,
                region: inspected.region,
                known: inspected.known,
            },
            Err(refused) => Inspection {
                kind: 3,
                number: refused.refusal.number(),
                held: 0,
                cut: 0,
                forced: 0,
                region: refused.region,
                known: refused.known,
            },
        }
    }
}

// A region of n atoms, all open, or number 10.
pub fn worzubil_undecided(n: usize) -> NewRegion
    ensures { result ≡ new_region_answer (undecided_of n) }
{
    NewRegion::from(Region::undecided(n))
}

pub fn worzubil_hold(region: Region, atom: usize) -> Decision
    ensures { result ≡ decided_answer (hold_of region (atom_number atom)) }
{
    Decision::from(region.hold(Atom(atom)))
}

pub fn worzubil_cut(region: Region, atom: usize) -> Decision
    ensures { result ≡ decided_answer (cut_of region (atom_number atom)) }
{
    Decision::from(region.cut(Atom(atom)))
}

pub fn worzubil_fresh() -> Snapshot
    ensures { result ≡ fresh }
{
    Snapshot::fresh()
}

pub fn worzubil_publish(known: Snapshot, region: Region) -> Published
    ensures { result ≡ published_answer (publish_of known region) }
{
    Published::from(known.publish(region))
}

pub fn worzubil_touched(system: System, index: &[u64], region: Region, known: Snapshot) -> Selected
    ensures { result ≡ selected_answer (selected_of system index.now region known) }
{
    Selected::from(snapshot::touched(system, index, region, known))
}

pub fn worzubil_inspect(
    system: System,
    rows: &[u64],
    constants: &[u8],
    basis: &[usize],
    index: &[u64],
    region: Region,
    known: Snapshot,
    forced_atoms: &mut [usize],
    forced_values: &mut [u8],
) -> Inspection
    ensures { (result, (forced_atoms.new, forced_values.new)) ≡ outcome_answer region known (inspect_of system (filled rows.now constants.now basis.now index.now) region known forced_atoms.old forced_values.old) }
{
    Inspection::from(inspect::inspect(
        system,
        rows,
        constants,
        basis,
        index,
        region,
        known,
        forced_atoms,
        forced_values,
    ))
}
