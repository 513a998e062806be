// The calls that document 01 asks for behind a reference, for C: the knowledge lent by `&mut`, and the forced list as a lent slice of `Forced`. Each is
// thin: the call by value of `ffi` does the work, and what it is lent is passed on one by one. `by_ref_c` exports them.
#![tactic(auto)]

ghost use Rattle.std.specs.Prelude.{◌≡◌, map, ◌≤◌, min, length, take, replicate};
ghost use Rattle.snapshot.specs.Knowledge.{publish_of};
ghost use Rattle.inspect.specs.Inspect.{filled, inspect_of};
ghost use Rattle.ffi.specs.Answers.{published_answer, outcome_answer};
ghost use Rattle.by_ref.specs.Told.{publication, joined, atom_of, value_of};
ghost use Rattle.by_ref.specs.Steps.{seen_of, written};

use ffi::inspects::Inspection;
use fit::LIMIT;
use parity::System;
use region::Region;
use snapshot::Snapshot;

pub mod promises;

// One entry of the forced list: an atom and its value, 0 or 1, as C reads it (`inspect` has its own).
#[repr(C)]
#[derive(Clone, Copy)]
pub struct Forced {
    pub atom: usize,
    pub value: u8,
}

// An inspection without the knowledge, as C has it, so with numbers for its kind and its refusal: kind 0 unchanged, 1 changed, 2 refuted, or 3
// refused with its number; how many atoms it held and cut, how long the forced list is, and the region as it is then.
#[repr(C)]
#[derive(Clone, Copy)]
pub struct Seen {
    pub kind: usize,
    pub number: usize,
    pub held: usize,
    pub cut: usize,
    pub forced: usize,
    pub region: Region,
}

impl From<Inspection> for Seen {
    ghost from_gives = { λ i s. s ≡ seen_of i };

    fn from(inspection: Inspection) -> Seen {
        Seen {
            kind: inspection.kind,
            number: inspection.number,
            held: inspection.held,
            cut: inspection.cut,
            forced: inspection.forced,
            region: inspection.region,
        }
    }
}

// An inspection with its forced list in two arrays, as the call by value is lent it.
#[derive(Clone, Copy)]
struct Listed {
    inspection: Inspection,
    atoms: [usize; 512],
    values: [u8; 512],
}

// Publishes a region in the very record that was passed, and answers the number under which the region is refused, or 0, for C, which has no Result.
pub fn worzubil_publish_in(known: &mut Snapshot, region: Region) -> usize
    ensures { publication result known.new ≡ published_answer (publish_of known.old region) }
{
    let published = ffi::inspects::worzubil_publish(*known, region);
    *known = published.known;
    published.number
}

// Inspects, with the knowledge in the very record that was passed.
pub fn worzubil_inspect_in(
    system: System,
    rows: &[u64],
    constants: &[u8],
    basis: &[usize],
    index: &[u64],
    region: Region,
    known: &mut Snapshot,
    forced_atoms: &mut [usize],
    forced_values: &mut [u8],
) -> Seen
    ensures { (joined result known.new, (forced_atoms.new, forced_values.new)) ≡ outcome_answer region known.old (inspect_of system (filled rows.now constants.now basis.now index.now) region known.old forced_atoms.old forced_values.old) }
{
    let inspection = ffi::inspects::worzubil_inspect(
        system,
        rows,
        constants,
        basis,
        index,
        region,
        *known,
        forced_atoms,
        forced_values,
    );
    *known = inspection.known;
    Seen::from(inspection)
}

// An inspection by value whose forced list has so many entries, up to 512.
fn gather(
    system: System,
    rows: &[u64],
    constants: &[u8],
    basis: &[usize],
    index: &[u64],
    region: Region,
    known: Snapshot,
    room: usize,
) -> Listed
    ensures { (result.inspection, (take (min room 512) result.atoms, take (min room 512) result.values)) ≡ outcome_answer region known (inspect_of system (filled rows.now constants.now basis.now index.now) region known (take (min room 512) (replicate 512 0)) (take (min room 512) (replicate 512 0))) }
{
    let mut atoms = [0usize; 512];
    let mut values = [0u8; 512];
    let end = room.min(LIMIT);
    let inspection = ffi::inspects::worzubil_inspect(
        system,
        rows,
        constants,
        basis,
        index,
        region,
        known,
        &mut atoms[..end],
        &mut values[..end],
    );
    Listed {
        inspection,
        atoms,
        values,
    }
}

// Writes the first so many entries of a list, from the two lists and the count that the call by value fills. By place (tried: of a list that
// `iter_mut().zip(..)` went through a proof knows the length, and not the entries).
fn write(list: &mut [Forced], atoms: &[usize; 512], values: &[u8; 512], count: usize)
    requires { (count ≤ length list.old) × (count ≤ 512) }
    ensures { list.new ≡ written atoms.now values.now count list.old }
{
    for i in 0..count {
        list[i] = Forced {
            atom: atoms[i],
            value: values[i],
        };
    }
}

// Inspects, with the forced list as one lent list of entries.
pub fn worzubil_inspect_list(
    system: System,
    rows: &[u64],
    constants: &[u8],
    basis: &[usize],
    index: &[u64],
    region: Region,
    known: Snapshot,
    list: &mut [Forced],
) -> Inspection
    ensures { (result, (map atom_of list.new, map value_of list.new)) ≡ outcome_answer region known (inspect_of system (filled rows.now constants.now basis.now index.now) region known (map atom_of list.old) (map value_of list.old)) }
{
    let listed = gather(
        system,
        rows,
        constants,
        basis,
        index,
        region,
        known,
        list.len(),
    );
    write(
        list,
        &listed.atoms,
        &listed.values,
        listed.inspection.forced,
    );
    listed.inspection
}
