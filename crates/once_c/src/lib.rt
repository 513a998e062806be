// For bench/run alone: inspections of a system that is looked at once, as a program in Rattle has them. It is timed, and promises nothing.
#![tactic(auto)]

use inspect::{Inspected, PreparedSystem};
use parity::System;
use refusal::Refusal;
use region::Region;
use snapshot::Snapshot;

// (Not inlined, so that all that it answers is written.)
#[inline(never)]
fn inspect(
    prepared: &PreparedSystem,
    region: &Region,
    known: &Snapshot,
    forced_atoms: &mut [usize],
    forced_values: &mut [u8],
) -> Result<Inspected, Refusal> {
    prepared.inspect(*region, *known, forced_atoms, forced_values)
}

// Inspects each region, over a system looked at once; how many atoms were decided in all.
#[unsafe(no_mangle)]
pub extern "C" fn once_inspect(
    system: System,
    rows: &[u64],
    constants: &[u8],
    basis: &[usize],
    index: &[u64],
    regions: &[Region],
    known: Snapshot,
    forced_atoms: &mut [usize],
    forced_values: &mut [u8],
) -> usize {
    let prepared = PreparedSystem::checked(system, rows, constants, basis, index);
    let mut decided = 0usize;
    for region in regions {
        if let Ok(told) = inspect(&prepared, region, &known, forced_atoms, forced_values) {
            decided = decided.wrapping_add(told.held).wrapping_add(told.cut);
        }
    }
    decided
}
