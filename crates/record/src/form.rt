// The checks of a record's form: its length (1), the order of kinds (2) and the size of its body (3).
ghost use Rattle.std.specs.Prelude.{◌≡◌, ◌&&◌, ◌+◌, length, leb};
ghost use Rattle.format.specs.Format.{length_at, kind_at, end_at};
ghost use Rattle.format.specs.Kind.{kind_of};
ghost use Rattle.record.specs.Form.{length_check, group_of, follows, kind_check, table_size_check, size_check};

use super::{Fault, FaultKind};
use format::{Kind, Record, UnknownKind};

// The groups of kinds, in the order in which they stand in a file.
#[derive(Clone, Copy, Debug, PartialEq, Eq, PartialOrd, Ord)]
pub enum Group {
    Count,
    Parts,
    Calls,
}

impl From<Kind> for Group {
    ghost from_gives = { λ kind group. group ≡ group_of kind };

    fn from(kind: Kind) -> Group {
        match kind {
            Kind::Atoms => Group::Count,
            Kind::Row | Kind::Table => Group::Parts,
            Kind::Decide | Kind::Inspect | Kind::Probe => Group::Calls,
        }
    }
}

// Whether the record lies within its file, by its length; nothing that could wrap is worked out.
fn framed(at: Record) -> bool
    ensures { result ≡ (leb (at.entry.offset + 2) (length at.entry.file.now) && (leb 2 (length_at at.entry.file.now at.entry.offset) && leb (end_at at.entry.file.now at.entry.offset) (length at.entry.file.now))) }
{
    let left = at.file.len().saturating_sub(at.offset);
    let length = usize::from(at.length());
    2 <= left && 2 <= length && length <= left - 2
}

#[tactic(auto, unfolding(crate::specs::Form::length_check))]
pub fn check_length(at: Record) -> Result<(), Fault>
    ensures { result ≡ length_check at.entry.file.now at.entry.offset }
{
    FaultKind::Length.unless(framed(at), at.offset)
}

fn may_follow(before: Option<Group>, group: Group) -> bool
    ensures { result ≡ follows before group }
{
    match before {
        None => group == Group::Count,
        Some(before) => group != Group::Count && before <= group,
    }
}

// A kind, where it is one and may stand after what was before, told at an offset. (Any number of two bytes can be asked, by `Kind::try_from`; a larger one is
// `Err(UnknownKind)`.)
#[tactic(auto, unfolding(crate::specs::Form::kind_check))]
pub fn check_order(
    before: Option<Group>,
    kind: Result<Kind, UnknownKind>,
    offset: usize,
) -> Result<Kind, Fault>
    ensures { result ≡ kind_check before kind offset }
{
    let fault = Fault {
        kind: FaultKind::Order,
        offset,
    };
    let kind = kind.or(Err(fault))?;
    FaultKind::Order.unless(may_follow(before, Group::from(kind)), offset)?;
    Ok(kind)
}

// The kind of a record.
pub fn check_kind(before: Option<Group>, at: Record) -> Result<Kind, Fault>
    ensures { result ≡ kind_check before (kind_of (kind_at at.entry.file.now at.entry.offset)) at.entry.offset }
{
    check_order(before, at.kind(), at.offset)
}

#[tactic(auto, unfolding(crate::specs::Form::table_size_check))]
fn check_table_size(at: Record) -> Result<(), Fault>
    ensures { result ≡ table_size_check at.entry.file.now at.entry.offset }
{
    let size = usize::from(at.body());
    let k = usize::from(at.k());
    FaultKind::Size.unless(size >= 1, at.offset)?;
    FaultKind::Range.unless(k <= hull::LIMIT, at.offset)?;
    FaultKind::Size.unless(size == 1 + k * 2 + hull::table_words(k) * 8, at.offset)
}

// (The kind is passed with the record, as in fields.rt.)
#[tactic(auto, unfolding(crate::specs::Form::size_check))]
pub fn check_size(at: Record, kind: Kind) -> Result<(), Fault>
    ensures { result ≡ size_check at.entry.file.now kind at.entry.offset }
{
    let size = at.body();
    let fit = match kind {
        Kind::Atoms => size == 2,
        Kind::Row => size % 2 == 1,
        Kind::Table => return check_table_size(at),
        Kind::Decide => size == 3,
        Kind::Inspect | Kind::Probe => size == 0,
    };
    FaultKind::Size.unless(fit, at.offset)
}
