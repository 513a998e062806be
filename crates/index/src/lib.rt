// The index: which basis rows have an atom. An atom's column as a part of the lent index, and whether it is refused. Index, n and rank are
// passed one by one, as C lends them.
#![tactic(auto)]

ghost use Rattle.std.specs.Prelude.{◌≡◌, ◌*◌, ◌≤◌, length};
ghost use Rattle.std.specs.Option.{option_copied};
ghost use Rattle.rows.specs.Calls.{part_of};
ghost use Rattle.index.specs.Index.{column_width};
ghost use Rattle.index.specs.Column.{over_rank, column_check, wanted_column};

use fit::LIMIT;
use refusal::Refusal;
use rows::Atom;

// "Columns of 2·ceil(rank/128) words". A row has ceil(n/64) (`rows::width`): with the unit as a parameter, each call of either would say its own.
pub fn column_width(rank: usize) -> usize
    ensures { result ≡ column_width rank }
{
    rank.div_ceil(128) * 2
}

// The words of an atom's column, if it lies within the index.
pub fn column_at(index: &[u64], width: usize, atom: Atom) -> Option<&[u64]>
    ensures { option_copied result ≡ part_of width index.now atom.0 }
{
    rows::part(index, width, atom.0)
}

// Whether one of the first n columns has a bit from the rank on, which only a column's last two words can have. These are joined, as `fit` joins the last
// words of rows, and the unions are asked. (The columns lie within, so the defaults never come.)
fn any_overranks(index: &[u64], rank: usize, width: usize, n: usize) -> bool
    requires { (width ≡ column_width rank) × (n * width ≤ length index.now) }
    ensures { result ≡ over_rank rank width index.now n }
{
    let used = rank % 128;
    if used == 0 {
        return false;
    }
    let last = rows::union_at(index, width, width - 1, n).unwrap_or(0);
    if used >= 64 {
        return last >> (used - 64) != 0;
    }
    last != 0 || rows::union_at(index, width, width - 2, n).unwrap_or(0) >> used != 0
}

// Whether an atom's column can be given back.
#[tactic(auto, unfolding(crate::specs::Column::column_check))]
pub fn check_column(index: &[u64], n: usize, rank: usize, atom: Atom) -> Result<(), Refusal>
    ensures { result ≡ column_check index.now n rank atom }
{
    if n > LIMIT || rank > LIMIT {
        return Err(Refusal::Overfull);
    }
    let width = column_width(rank);
    if index.len() < n * width {
        return Err(Refusal::Short);
    }
    if any_overranks(index, rank, width, n) {
        return Err(Refusal::Index);
    }
    if atom.0 >= n {
        return Err(Refusal::Atom);
    }
    Ok(())
}

// "The column of an atom is given back as that part of the lent index"; refused, it is the index's first 0 words, and no Option: document 01 has this
// call give back a part of the index, and `check_column` says why it is empty.
#[tactic(auto, using(crate::proofs::Wanted::wanted_part), unfolding(crate::specs::Column::wanted_column))]
pub fn column(index: &[u64], n: usize, rank: usize, atom: Atom) -> &[u64]
    ensures { result.now ≡ wanted_column index.now n rank atom }
{
    match check_column(index, n, rank, atom) {
        Ok(()) => column_at(index, column_width(rank), atom).unwrap(),
        Err(_) => &index[..0],
    }
}
