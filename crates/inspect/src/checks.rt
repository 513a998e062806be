// Whether what `inspect` is asked is fit: document 01's numbers 10, 13 for the rank, 9, 11, 12, 13 for a basis entry, 14, 15, 16. Lists are passed one
// by one: `probe` lends `check_lent` no index, and so has no struct of them.
ghost use Rattle.std.specs.Prelude.{◌≡◌, ◌≤◌};
ghost use Rattle.inspect.specs.Lent.{lent_check};
ghost use Rattle.inspect.specs.Inspect.{filled, lists_short, inspect_check};

use parity::System;
use refusal::Refusal;
use region::Region;
use snapshot::Snapshot;

// Whether basis, index or forced list are too short, by their lengths: not as in `parity`, where the rank is not known yet.
fn lists_short(system: System, basis: usize, index: usize, atoms: usize, values: usize) -> bool
    requires { (system.atoms ≤ 512) × (system.rank ≤ 512) }
    ensures { result ≡ lists_short system basis index atoms values }
{
    basis < system.rows.min(system.atoms)
        || index < system.atoms * index::column_width(system.rank)
        || atoms < system.rank
        || values < system.rank
}

// The rows, the region and the basis entries below the rank, in this order; `probe` checks them so too.
#[tactic(auto, unfolding(crate::specs::Lent::lent_check, fit::specs::Rows::rows_check, region::specs::Calls::region_check))]
pub fn check_lent(
    system: System,
    rows: &[u64],
    constants: &[u8],
    basis: &[usize],
    region: &Region,
) -> Result<(), Refusal>
    ensures { result ≡ lent_check system rows.now constants.now basis.now region.now }
{
    fit::check_rows(system.atoms, system.rows, rows, constants)?;
    region.check()?;
    if fit::any_misnames(basis, system.rows, system.rank) {
        return Err(Refusal::Basis);
    }
    Ok(())
}

// The checks in their order.
#[tactic(auto, unfolding(crate::specs::Inspect::inspect_check))]
pub fn check(
    system: System,
    rows: &[u64],
    constants: &[u8],
    basis: &[usize],
    index: &[u64],
    region: Region,
    known: Snapshot,
    atoms: usize,
    values: usize,
) -> Result<(), Refusal>
    ensures { result ≡ inspect_check system (filled rows.now constants.now basis.now index.now) region known atoms values }
{
    if known.overfull(system, region) {
        return Err(Refusal::Overfull);
    }
    if system.rank > system.rows.min(system.atoms) {
        return Err(Refusal::Basis);
    }
    if lists_short(system, basis.len(), index.len(), atoms, values) {
        return Err(Refusal::Short);
    }
    check_lent(system, rows, constants, basis, &region)?;
    known.check_last(system, index, region)
}
