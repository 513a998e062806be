// One inspection: a port of the inspection of parity/runtime.rs over lent memory. Touched basis rows are read against the region as it
// came, that region is published, and what follows from single rows is then decided in basis order (prepared.rt).
#![tactic(auto)]

ghost use Rattle.std.specs.Prelude.{◌≡◌, ◌-◌, ◌^◌, Ok, replicate, IfErr};
ghost use Rattle.std.specs.Int.Bits.{bit_xor};
ghost use Rattle.words.specs.Calls.{merged};
ghost use Rattle.region.specs.Masks.{decisions};
ghost use Rattle.region.specs.Calls.{region_check};
ghost use Rattle.inspect.specs.Batch.{begun, applied};
ghost use Rattle.inspect.specs.Inspect.{filled, told_of, outcome, told, answer_of, ended, inspect_of};
ghost use Rattle.inspect.specs.Steps.{Masked, Applicable, forced_in};

use apply::Tally;
pub use checks::check_lent;
use parity::System;
pub use prepared::PreparedSystem;
use refusal::Refusal;
use region::Region;
use rows::Atom;
use snapshot::Snapshot;

mod apply;
mod checks;
mod collect;
mod prepared;
pub mod promises;
mod says;

// What a row with one open atom forces: the atom's value.
#[derive(Clone, Copy)]
struct Forced {
    atom: Atom,
    value: bool,
}

// What refutes at a row: no open atom and the wrong parity.
#[derive(Clone, Copy)]
struct Wrong;

// A wrong row among those touched, behind so many forced atoms.
#[derive(Clone, Copy)]
struct Contradiction {
    forced: usize,
}

// The atoms that a region holds, and those that it leaves open. (Two masks and no list of decisions: a row is met with words.)
#[derive(Clone, Copy)]
pub struct Masks {
    pub held: [u64; 8],
    pub free: [u64; 8],
}

impl From<Region> for Masks {
    ghost from_gives = { λ region masks. (masks.held ≡ region.held)
        × (masks.free ≡ merged bit_xor (merged bit_xor (replicate 8 (2 ^ 64 - 1)) region.held) region.cut)
        × (region_check region ≡ Ok tt → Masked region.atoms (decisions region) masks.held masks.free) };

    // The open atoms are those that are not held and not cut; atoms from n on are among them, but no row has one.
    fn from(region: Region) -> Masks {
        let mut free = [u64::MAX; 8];
        words::xor_assign(&mut free, &region.held);
        words::xor_assign(&mut free, &region.cut);
        Masks {
            held: region.held,
            free,
        }
    }
}

// What becomes of an inspection that is not refused.
#[derive(Clone, Copy)]
pub enum Step {
    Unchanged,
    Changed,
    Refuted,
}

// What `inspect` answers: how many atoms it decided as held and as cut, the forced list's length, and region and knowledge as they are now. (Those
// are two values and no pair: C lends them apart, and other calls take one of them.)
#[derive(Clone, Copy)]
pub struct Inspected {
    pub answer: Step,
    pub held: usize,
    pub cut: usize,
    pub forced: usize,
    pub region: Region,
    pub known: Snapshot,
}

// A refused inspection: why, and region and knowledge as they were passed.
#[derive(Clone, Copy)]
pub struct NotInspected {
    pub refusal: Refusal,
    pub region: Region,
    pub known: Snapshot,
}

// An inspection that decides nothing: region and knowledge stand. (No From: it has four values of four types, and no struct has just those.)
fn stands(answer: Step, forced: usize, region: Region, known: Snapshot) -> Inspected
    ensures { result ≡ told_of answer 0 0 forced region known }
{
    Inspected {
        answer,
        held: 0,
        cut: 0,
        forced,
        region,
        known,
    }
}

// The answer of a batch.
impl From<Tally> for Step {
    ghost from_gives = { λ tally step. step ≡ answer_of tally.held tally.cut tally.against };

    fn from(tally: Tally) -> Step {
        if tally.against {
            Step::Refuted
        } else if tally.held == 0 && tally.cut == 0 {
            Step::Unchanged
        } else {
            Step::Changed
        }
    }
}

// Publishes the region as it came, which is fit, and applies the forced list: the first `forced` entries of lists that are lent longer, which `apply` cuts.
// (What it answers is built by its fields: they come from the batch, the region and the count.)
fn conclude(region: Region, forced: usize, atoms: &[usize], values: &[u8]) -> Inspected
    requires { Applicable region forced atoms.now values.now }
    ensures { result ≡ ended (applied (begun (decisions region)) (forced_in atoms.now values.now forced)) forced region }
{
    let applied = apply::apply(region, forced, atoms, values);
    Inspected {
        answer: Step::from(applied.tally),
        held: applied.tally.held,
        cut: applied.tally.cut,
        forced,
        region: applied.region,
        known: Snapshot::from(region),
    }
}

// Inspects the touched basis rows of a prepared system against a region, once. Lists are lent one by one, as C lends them: anew for each call, so that
// nothing was looked at before.
pub fn inspect(
    system: System,
    rows: &[u64],
    constants: &[u8],
    basis: &[usize],
    index: &[u64],
    region: Region,
    known: Snapshot,
    forced_atoms: &mut [usize],
    forced_values: &mut [u8],
) -> Result<Inspected, NotInspected>
    ensures is { outcome (told result) forced_atoms.new forced_values.new ≡ inspect_of system (filled rows.now constants.now basis.now index.now) region known forced_atoms.old forced_values.old }
    ensures passed { IfErr result (λ e. (e.region ≡ region) × (e.known ≡ known)) }
{
    let prepared = PreparedSystem {
        system,
        rows,
        constants,
        basis,
        index,
        fit: false,
    };
    prepared
        .inspect(region, known, forced_atoms, forced_values)
        .map_err(|refusal| NotInspected {
            refusal,
            region,
            known,
        })
}
