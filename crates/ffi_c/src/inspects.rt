// The calls on regions and knowledge: those of `ffi`'s inspects.rt.
ghost use Rattle.std.specs.Prelude.{◌≡◌};
ghost use Rattle.region.specs.Calls.{undecided_of, hold_of, cut_of};
ghost use Rattle.snapshot.specs.Knowledge.{fresh, publish_of};
ghost use Rattle.snapshot.specs.Touch.{selected_of};
ghost use Rattle.inspect.specs.Inspect.{filled, inspect_of};
ghost use Rattle.ffi.specs.Answers.{atom_number, new_region_answer, decided_answer, published_answer, selected_answer, outcome_answer};

use ffi::inspects::{Decision, Inspection, NewRegion, Published, Selected};
use parity::System;
use region::Region;
use snapshot::Snapshot;

// A region of n atoms, all open, or number 10.
#[unsafe(no_mangle)]
pub extern "C" fn worzubil_undecided(n: usize) -> NewRegion
    ensures { result ≡ new_region_answer (undecided_of n) }
{
    ffi::inspects::worzubil_undecided(n)
}

#[unsafe(no_mangle)]
pub extern "C" fn worzubil_hold(region: Region, atom: usize) -> Decision
    ensures { result ≡ decided_answer (hold_of region (atom_number atom)) }
{
    ffi::inspects::worzubil_hold(region, atom)
}

#[unsafe(no_mangle)]
pub extern "C" fn worzubil_cut(region: Region, atom: usize) -> Decision
    ensures { result ≡ decided_answer (cut_of region (atom_number atom)) }
{
    ffi::inspects::worzubil_cut(region, atom)
}

#[unsafe(no_mangle)]
pub extern "C" fn worzubil_fresh() -> Snapshot
    ensures { result ≡ fresh }
{
    ffi::inspects::worzubil_fresh()
}

#[unsafe(no_mangle)]
pub extern "C" fn worzubil_publish(known: Snapshot, region: Region) -> Published
    ensures { result ≡ published_answer (publish_of known region) }
{
    ffi::inspects::worzubil_publish(known, region)
}

#[unsafe(no_mangle)]
pub extern "C" fn worzubil_touched(
    system: System,
    index: &[u64],
    region: Region,
    known: Snapshot,
) -> Selected
    ensures { result ≡ selected_answer (selected_of system index.now region known) }
{
    ffi::inspects::worzubil_touched(system, index, region, known)
}

#[unsafe(no_mangle)]
pub extern "C" fn worzubil_inspect(
    system: System,
    rows: &[u64],
    constants: &[u8],
    basis: &[usize],
    index: &[u64],
    region: Region,
    known: Snapshot,
    forced_atoms: &mut [usize],
    forced_values: &mut [u8],
) -> Inspection
    ensures { (result, (forced_atoms.new, forced_values.new)) ≡ outcome_answer region known (inspect_of system (filled rows.now constants.now basis.now index.now) region known forced_atoms.old forced_values.old) }
{
    ffi::inspects::worzubil_inspect(
        system,
        rows,
        constants,
        basis,
        index,
        region,
        known,
        forced_atoms,
        forced_values,
    )
}
