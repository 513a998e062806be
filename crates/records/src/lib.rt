// The check of a file of records: document 01's numbers for the sender of a file, 1 to 8, each with its offset.
#![tactic(auto)]

ghost use Rattle.std.specs.Prelude.{◌≡◌};
ghost use Rattle.format.specs.Starts.{starts};
ghost use Rattle.records.specs.Check.{nothing_seen, step_of, check_from, check_of};

use format::{Kind, Record, Records};
use record::form::Group;
use record::{Fault, FaultKind, fields, form};

mod bring;
pub mod promises;

// The most bytes of a file.
pub const FILE_LIMIT: usize = 65536;

// What was seen of the records so far: the group of the last one's kind, the atom count, and the rows.
#[derive(Clone, Copy)]
pub struct Seen {
    pub group: Option<Group>,
    pub atoms: usize,
    pub rows: usize,
}

// The atoms and rows of a file that is fit.
#[derive(Clone, Copy, Debug, PartialEq, Eq)]
pub struct Checked {
    pub atoms: usize,
    pub rows: usize,
}

// The checks of one record, and what is seen with it. Its rows are worked out once, after its form and fields are found fit.
#[tactic(auto, unfolding(crate::specs::Check::step_of))]
fn check_record(at: Record, seen: Seen) -> Result<Seen, Fault>
    ensures { result ≡ step_of at.entry.file.now seen at.entry.offset }
{
    form::check_length(at)?;
    let kind = form::check_kind(seen.group, at)?;
    form::check_size(at, kind)?;
    fields::check_range(at, kind, seen.atoms)?;
    fields::check_rising(at, kind)?;
    let more = bring::rows_in(at, kind)?;
    let rows = bring::add_rows(seen.rows, more, at.offset)?;
    let atoms = match kind {
        Kind::Atoms => usize::from(at.count()),
        _ => seen.atoms,
    };
    Ok(Seen {
        group: Some(Group::from(kind)),
        atoms,
        rows,
    })
}

fn check_records(file: &[u8]) -> Result<Checked, Fault>
    ensures { result ≡ check_from file.now nothing_seen (starts file.now 0) }
{
    let mut seen = Seen {
        group: None,
        atoms: 0,
        rows: 0,
    };
    for record in Records::of(file) {
        seen = check_record(record, seen)?;
    }
    // By its fields: the group that was seen last is not told.
    Ok(Checked {
        atoms: seen.atoms,
        rows: seen.rows,
    })
}

// The whole file: its first fault, or its atoms and rows.
#[tactic(auto, unfolding(crate::specs::Check::check_of))]
pub fn check(file: &[u8]) -> Result<Checked, Fault>
    ensures { result ≡ check_of file.now }
{
    FaultKind::TooLong.unless(file.len() <= FILE_LIMIT, FILE_LIMIT)?;
    FaultKind::Order.unless(!file.is_empty(), 0)?;
    check_records(file)
}
