// The rows that a record brings, and their checks: a table exact (6), and not too many rows (7).
ghost use Rattle.std.specs.Prelude.{◌≡◌, ◌≤◌};
ghost use Rattle.hull.specs.Propose as hull;
ghost use Rattle.format.specs.Kind.{kind_number};
ghost use Rattle.format.specs.Format.{kind_at, k_at};
ghost use Rattle.records.specs.Rows.{brought, rows_after};

use fit::LIMIT;
use format::{Kind, Record};
use record::{Fault, FaultKind};

// How many rows a record brings; a table's size is known to be within the limit. (The kind is passed with the record, as in `record`.)
#[tactic(auto, unfolding(crate::specs::Rows::exact_at, crate::specs::Rows::rows_at))]
pub fn rows_in(at: Record, kind: Kind) -> Result<usize, Fault>
    requires named { kind_at at.file.now at.offset ≡ kind_number kind }
    requires small { kind ≡ Kind.Table → k_at at.file.now at.offset ≤ hull.limit }
    ensures { result ≡ brought at.entry.file.now at.entry.offset }
{
    match kind {
        Kind::Row => Ok(1),
        Kind::Table => {
            let hull = at.table().unwrap();
            FaultKind::Inexact.unless(hull.exact, at.offset)?;
            Ok(hull.count)
        }
        _ => Ok(0),
    }
}

// So many rows and more, where there is room for them.
pub fn add_rows(rows: usize, more: usize, offset: usize) -> Result<usize, Fault>
    ensures { result ≡ rows_after rows more offset }
{
    rows.checked_add(more)
        .filter(|all| *all <= LIMIT)
        .ok_or(Fault {
            kind: FaultKind::Rows,
            offset,
        })
}
