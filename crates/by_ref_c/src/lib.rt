// The second archive for C. Each function here is one call of the function of that name in `by_ref`, and states its clauses again;
// include/worzubil.h declares them, under these names.
#![tactic(auto)]

ghost use Rattle.std.specs.Prelude.{◌≡◌, map};
ghost use Rattle.snapshot.specs.Knowledge.{publish_of};
ghost use Rattle.inspect.specs.Inspect.{filled, inspect_of};
ghost use Rattle.ffi.specs.Answers.{published_answer, outcome_answer};
ghost use Rattle.by_ref.specs.Told.{publication, joined, atom_of, value_of};

use by_ref::{Forced, Seen};
use ffi::inspects::Inspection;
use parity::System;
use region::Region;
use snapshot::Snapshot;

// Publishes a region in the very record that was passed, and answers the number under which the region is refused, or 0.
#[unsafe(no_mangle)]
pub extern "C" fn worzubil_publish_in(known: &mut Snapshot, region: Region) -> usize
    ensures { publication result known.new ≡ published_answer (publish_of known.old region) }
{
    by_ref::worzubil_publish_in(known, region)
}

// Inspects, with the knowledge in the very record that was passed.
#[unsafe(no_mangle)]
pub extern "C" fn worzubil_inspect_in(
    system: System,
    rows: &[u64],
    constants: &[u8],
    basis: &[usize],
    index: &[u64],
    region: Region,
    known: &mut Snapshot,
    forced_atoms: &mut [usize],
    forced_values: &mut [u8],
) -> Seen
    ensures { (joined result known.new, (forced_atoms.new, forced_values.new)) ≡ outcome_answer region known.old (inspect_of system (filled rows.now constants.now basis.now index.now) region known.old forced_atoms.old forced_values.old) }
{
    by_ref::worzubil_inspect_in(
        system,
        rows,
        constants,
        basis,
        index,
        region,
        known,
        forced_atoms,
        forced_values,
    )
}

// Inspects, with the forced list as one lent list of entries.
#[unsafe(no_mangle)]
pub extern "C" fn worzubil_inspect_list(
    system: System,
    rows: &[u64],
    constants: &[u8],
    basis: &[usize],
    index: &[u64],
    region: Region,
    known: Snapshot,
    list: &mut [Forced],
) -> Inspection
    ensures { (result, (map atom_of list.new, map value_of list.new)) ≡ outcome_answer region known (inspect_of system (filled rows.now constants.now basis.now index.now) region known (map atom_of list.old) (map value_of list.old)) }
{
    by_ref::worzubil_inspect_list(system, rows, constants, basis, index, region, known, list)
}
