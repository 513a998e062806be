// Preparation (parity.rs) over flat lent words: forward elimination, units and index.
#![tactic(auto)]

ghost use Rattle.std.specs.Prelude.{◌≡◌, ◌≤◌};
ghost use Rattle.parity.specs.Prepare.{lent, lists_short, prepare_check, prepare_of};

pub use basis::{Basis, BasisRow};
use refusal::Refusal;

mod basis;
mod enter;
mod incidence;
pub mod promises;
mod visit;

// A system as preparation leaves it: how many atoms and rows there are, how many basis rows, and whether it was refuted.
// (A flag in a plain record: C has it so.)
#[repr(C)]
#[derive(Clone, Copy)]
pub struct System {
    pub atoms: usize,
    pub rows: usize,
    pub rank: usize,
    pub refuted: bool,
}

// What `prepare` answers: the system, and the counts of preparation.
#[derive(Clone, Copy)]
pub struct Prepared {
    pub system: System,
    pub additions: usize,
    pub units: usize,
    pub incidences: usize,
}

// Whether the basis, the units or the index are too short, by their lengths.
fn lists_short(n: usize, m: usize, basis: usize, atoms: usize, values: usize, index: usize) -> bool
    requires { n ≤ 512 }
    ensures { result ≡ lists_short n m basis atoms values index }
{
    let least = m.min(n);
    basis < least || atoms < least || values < least || index < n * index::column_width(least)
}

// Whether what is lent is fit, all passed one by one, as `prepare` is lent it.
#[tactic(auto, unfolding(crate::specs::Prepare::prepare_check, fit::specs::Rows::rows_check))]
fn check(
    n: usize,
    m: usize,
    rows: &[u64],
    constants: &[u8],
    basis: &[usize],
    unit_atoms: &[usize],
    unit_values: &[u8],
    index: &[u64],
) -> Result<(), Refusal>
    ensures { result ≡ prepare_check n m (lent rows.now constants.now basis.now unit_atoms.now unit_values.now index.now) }
{
    let rows_fit = fit::check_rows(n, m, rows, constants);
    if rows_fit == Err(Refusal::Overfull) {
        return rows_fit;
    }
    if lists_short(
        n,
        m,
        basis.len(),
        unit_atoms.len(),
        unit_values.len(),
        index.len(),
    ) {
        return Err(Refusal::Short);
    }
    rows_fit
}

// Prepares m rows over n atoms in lent memory: reduces them in place, names the basis rows, and where the system is not refuted writes its
// units and its index. "Words and entries past those named are untouched." The lists are lent one by one, as C lends them.
#[tactic(auto, unfolding(crate::specs::Prepare::prepare_of))]
pub fn prepare(
    n: usize,
    m: usize,
    rows: &mut [u64],
    constants: &mut [u8],
    basis: &mut [usize],
    unit_atoms: &mut [usize],
    unit_values: &mut [u8],
    index: &mut [u64],
) -> Result<Prepared, Refusal>
    ensures { (result, lent rows.new constants.new basis.new unit_atoms.new unit_values.new index.new) ≡ prepare_of n m (lent rows.old constants.old basis.old unit_atoms.old unit_values.old index.old) }
{
    check(n, m, rows, constants, basis, unit_atoms, unit_values, index)?;
    let done = echelon::eliminate(n, m, rows, constants, basis)?;
    let system = System {
        atoms: n,
        rows: m,
        rank: done.rank,
        refuted: done.refuted,
    };
    if done.refuted {
        return Ok(Prepared {
            system,
            additions: done.additions,
            units: 0,
            incidences: 0,
        });
    }
    let left = Basis {
        atoms: n,
        rank: done.rank,
        rows,
        constants,
        entries: basis,
    };
    let counts = enter::enter_basis(&left, unit_atoms, unit_values, index);
    Ok(Prepared {
        system,
        additions: done.additions,
        units: counts.units,
        incidences: counts.incidences,
    })
}
