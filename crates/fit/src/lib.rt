// Whether the rows and constants that a caller lends are fit: document 01's numbers 10, 9 and 11 for m rows over n atoms.
#![tactic(auto)]

ghost use Rattle.std.specs.Prelude.{◌≡◌, ◌*◌, ◌≤◌, min, length};
ghost use Rattle.rows.specs.Flat.{width_of};
ghost use Rattle.fit.specs.Rows.{strays, misnames, rows_check};

use refusal::Refusal;

// The most atoms, and the most rows.
pub const LIMIT: usize = 512;

// Whether one of the first m rows has an atom from n on, which only its last word can have, or a constant above 1. The constants are joined, and so are
// these words, and the union is asked. (The rows lie within, so the default never comes.)
fn any_strays(rows: &[u64], constants: &[u8], n: usize, width: usize, m: usize) -> bool
    requires { (width ≡ width_of n) × (m * width ≤ length rows.now) × (m ≤ length constants.now) }
    ensures { result ≡ strays n width rows.now constants.now m }
{
    let mut union = 0;
    for constant in &constants[..m] {
        union |= *constant;
    }
    if union > 1 {
        return true;
    }
    let used = n % 64;
    if used == 0 {
        return false;
    }
    rows::union_at(rows, width, width - 1, m).unwrap_or(0) >> used != 0
}

// Whether one of the first `rank` entries of a basis, as far as it has them, names none of m rows: those that name one are counted, without an early exit.
// (The list is lent with the rank, and may be longer: C lends it so.)
#[tactic(auto, using(std::proofs::lemmas::Grind::common_steps, crate::proofs::Naming::misnames_start, crate::proofs::Naming::misnames_step))]
pub fn any_misnames(basis: &[usize], m: usize, rank: usize) -> bool
    ensures { result ≡ misnames m basis.now (min rank (length basis.now)) }
{
    let entries = rank.min(basis.len());
    let mut naming = 0;
    for entry in &basis[..entries] {
        naming += usize::from(*entry < m);
    }
    naming != entries
}

// Whether m lent rows over n atoms and their constants are fit, all passed one by one, as C lends them to the calls that ask it.
#[tactic(auto, unfolding(crate::specs::Rows::rows_check))]
pub fn check_rows(n: usize, m: usize, rows: &[u64], constants: &[u8]) -> Result<(), Refusal>
    ensures { result ≡ rows_check n m rows.now constants.now }
{
    if n > LIMIT || m > LIMIT {
        return Err(Refusal::Overfull);
    }
    let width = rows::width(n);
    if rows.len() < m * width || constants.len() < m {
        return Err(Refusal::Short);
    }
    if any_strays(rows, constants, n, width, m) {
        return Err(Refusal::Stray);
    }
    Ok(())
}
