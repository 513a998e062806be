// An inspection, and what the inspections of one prepared system are lent: a file's calls are all lent the same, so that is looked at once, and each call then
// looks at its own region, knowledge and lists.
ghost use Rattle.std.specs.Prelude.{◌≡◌, true, Ok, length};
ghost use Rattle.inspect.specs.Inspect.{filled, outcome, inspect_check, inspect_of};
ghost use Rattle.inspect.specs.Once.{prepared_check, passes};
ghost use Rattle.inspect.specs.Steps.{call_check};

use super::{Inspected, Step, checks, collect, conclude, stands};
use parity::{Basis, System};
use refusal::Refusal;
use region::Region;
use snapshot::Snapshot;

// Whether what a system's calls are all lent is fit.
#[tactic(auto, unfolding(crate::specs::Once::prepared_check, fit::specs::Rows::rows_check))]
fn check_prepared(
    system: System,
    rows: &[u64],
    constants: &[u8],
    basis: &[usize],
    index: &[u64],
) -> Result<(), Refusal>
    ensures { result ≡ prepared_check system (filled rows.now constants.now basis.now index.now) }
{
    fit::check_rows(system.atoms, system.rows, rows, constants)?;
    let entries = system.rows.min(system.atoms);
    if system.rank > entries {
        return Err(Refusal::Basis);
    }
    if basis.len() < entries || index.len() < system.atoms * index::column_width(system.rank) {
        return Err(Refusal::Short);
    }
    if fit::any_misnames(basis, system.rows, system.rank) {
        return Err(Refusal::Basis);
    }
    if snapshot::past_rank(system, index) {
        return Err(Refusal::Index);
    }
    Ok(())
}

// The checks that are left where that was found: of the region, the knowledge and the lists.
#[tactic(auto, unfolding(crate::specs::Steps::call_check, region::specs::Calls::region_check))]
fn check_call(
    system: System,
    region: Region,
    known: Snapshot,
    atoms: usize,
    values: usize,
) -> Result<(), Refusal>
    ensures { result ≡ call_check system region known atoms values }
{
    if known.overfull(system, region) {
        return Err(Refusal::Overfull);
    }
    if atoms < system.rank || values < system.rank {
        return Err(Refusal::Short);
    }
    region.check()?;
    if known.unequal(system, region) {
        return Err(Refusal::Unequal);
    }
    if known.missing(region) {
        return Err(Refusal::Missing);
    }
    Ok(())
}

// A system and the memory that its preparation filled, and whether that was looked at and is fit. (A flag and no Result: what is unfit can be inspected too,
// and each call then says its number.)
#[derive(Clone, Copy)]
pub struct PreparedSystem<'a> {
    pub system: System,
    pub rows: &'a [u64],
    pub constants: &'a [u8],
    pub basis: &'a [usize],
    pub index: &'a [u64],
    pub fit: bool,
    pub ghost sound: { fit ≡ true → prepared_check system (filled rows.now constants.now basis.now index.now) ≡ Ok tt },
}

impl<'a> PreparedSystem<'a> {
    // Looked at once, for many inspections.
    pub fn checked(
        system: System,
        rows: &'a [u64],
        constants: &'a [u8],
        basis: &'a [usize],
        index: &'a [u64],
    ) -> PreparedSystem<'a>
        ensures system { result.system ≡ system }
        ensures memory { filled result.rows.now result.constants.now result.basis.now result.index.now ≡ filled rows.now constants.now basis.now index.now }
        ensures fit { result.fit ≡ passes (prepared_check system (filled rows.now constants.now basis.now index.now)) }
    {
        let fit = check_prepared(system, rows, constants, basis, index).is_ok();
        PreparedSystem {
            system,
            rows,
            constants,
            basis,
            index,
            fit,
        }
    }

    // The checks in their order. Where the system was looked at, those that are left.
    fn check(
        &self,
        region: Region,
        known: Snapshot,
        atoms: usize,
        values: usize,
    ) -> Result<(), Refusal>
        ensures { result ≡ inspect_check self.now.system (filled self.now.rows.now self.now.constants.now self.now.basis.now self.now.index.now) region known atoms values }
    {
        if self.fit {
            return check_call(self.system, region, known, atoms, values);
        }
        checks::check(
            self.system,
            self.rows,
            self.constants,
            self.basis,
            self.index,
            region,
            known,
            atoms,
            values,
        )
    }

    // An inspection that no number refuses: the touched rows are read, and what they say is concluded.
    #[tactic(auto, unfolding(crate::specs::Inspect::inspect_of))]
    fn inspect_fit(
        &self,
        region: Region,
        known: Snapshot,
        forced_atoms: &mut [usize],
        forced_values: &mut [u8],
    ) -> Inspected
        requires { inspect_check self.now.system (filled self.now.rows.now self.now.constants.now self.now.basis.now self.now.index.now) region known (length forced_atoms.old) (length forced_values.old) ≡ Ok tt }
        ensures { outcome (Ok result) forced_atoms.new forced_values.new ≡ inspect_of self.now.system (filled self.now.rows.now self.now.constants.now self.now.basis.now self.now.index.now) region known forced_atoms.old forced_values.old }
    {
        let system = self.system;
        if system.refuted {
            return stands(Step::Refuted, 0, region, known);
        }
        if system.rank == 0 {
            return stands(Step::Unchanged, 0, region, known);
        }
        let touched = snapshot::select(system.rank, self.index, region, known);
        let basis = Basis {
            atoms: system.atoms,
            rank: system.rank,
            rows: self.rows,
            constants: self.constants,
            entries: self.basis,
        };
        match collect::collect_touched(&basis, touched, region, forced_atoms, forced_values) {
            Ok(forced) => conclude(region, forced, forced_atoms, forced_values),
            Err(found) => stands(Step::Refuted, found.forced, region, known),
        }
    }

    // Inspects the touched basis rows against a region, once.
    #[tactic(auto, unfolding(crate::specs::Inspect::inspect_of))]
    pub fn inspect(
        &self,
        region: Region,
        known: Snapshot,
        forced_atoms: &mut [usize],
        forced_values: &mut [u8],
    ) -> Result<Inspected, Refusal>
        ensures { outcome result forced_atoms.new forced_values.new ≡ inspect_of self.now.system (filled self.now.rows.now self.now.constants.now self.now.basis.now self.now.index.now) region known forced_atoms.old forced_values.old }
    {
        self.check(region, known, forced_atoms.len(), forced_values.len())?;
        Ok(self.inspect_fit(region, known, forced_atoms, forced_values))
    }
}
