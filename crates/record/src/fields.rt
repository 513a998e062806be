// The checks of a record's fields: numbers within their bounds (4), and a table's atoms rising (5). The kind is passed with the record, once it is
// known: a record may have none.
ghost use Rattle.std.specs.Prelude.{◌≡◌};
ghost use Rattle.format.specs.Bytes.{list_from};
ghost use Rattle.format.specs.Format.{atom_at};
ghost use Rattle.record.specs.Fields.{good_atoms, all_below, rising_atoms, rises, range_check, rising_check};

use super::{Fault, FaultKind};
use fit::LIMIT;
use format::{Kind, Record};

// How many of a record's first `count` atoms come before one that is not below n.
fn good_atoms(at: Record, n: usize, count: usize) -> usize
    ensures { result ≡ good_atoms n (list_from (atom_at at.entry.file.now at.entry.offset) 0 count) }
{
    (0..count)
        .position(|i| n <= usize::from(at.atom(i)))
        .unwrap_or(count)
}

// Whether all of them are below n.
fn all_below(at: Record, n: usize, count: usize) -> bool
    ensures { result ≡ all_below n (list_from (atom_at at.entry.file.now at.entry.offset) 0 count) }
{
    good_atoms(at, n, count) == count
}

// How many of them come before one that does not rise.
fn rising_atoms(at: Record, count: usize) -> usize
    ensures { result ≡ rising_atoms 0 (list_from (atom_at at.entry.file.now at.entry.offset) 0 count) }
{
    (0..count)
        .position(|i| i > 0 && at.atom(i) <= at.atom(i - 1))
        .unwrap_or(count)
}

// Whether they rise.
fn rises(at: Record, count: usize) -> bool
    ensures { result ≡ rises 0 (list_from (atom_at at.entry.file.now at.entry.offset) 0 count) }
{
    rising_atoms(at, count) == count
}

#[tactic(auto, unfolding(crate::specs::Fields::range_check))]
pub fn check_range(at: Record, kind: Kind, n: usize) -> Result<(), Fault>
    ensures { result ≡ range_check at.entry.file.now kind n at.entry.offset }
{
    let o = at.offset;
    match kind {
        Kind::Atoms => FaultKind::Range.unless(usize::from(at.count()) <= LIMIT, o),
        Kind::Row => {
            FaultKind::Range.unless(at.constant() <= 1, o)?;
            FaultKind::Range.unless(all_below(at, n, usize::from(at.atom_count())), o)
        }
        Kind::Table => FaultKind::Range.unless(all_below(at, n, usize::from(at.k())), o),
        Kind::Decide => {
            FaultKind::Range.unless(usize::from(at.decided()) < n, o)?;
            FaultKind::Range.unless(at.value() <= 1, o)
        }
        Kind::Inspect | Kind::Probe => Ok(()),
    }
}

#[tactic(auto, unfolding(crate::specs::Fields::rising_check))]
pub fn check_rising(at: Record, kind: Kind) -> Result<(), Fault>
    ensures { result ≡ rising_check at.entry.file.now kind at.entry.offset }
{
    match kind {
        Kind::Table => FaultKind::Rising.unless(rises(at, usize::from(at.k())), at.offset),
        _ => Ok(()),
    }
}
