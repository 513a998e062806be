// Forward elimination in place: the first part of `prepare` of parity.rs, over flat lent words.
#![tactic(auto)]

ghost use Rattle.std.specs.Prelude.{◌≡◌, Ok, ◌*◌, ◌≤◌};
ghost use Rattle.rows.specs.Flat.{width_of};
ghost use Rattle.echelon.specs.Forward.{eliminated};
ghost use Rattle.echelon.specs.Eliminate.{rows_to, written, outcome, eliminate_check, eliminate_of};
ghost use Rattle.echelon.specs.Steps.{WordsFit, Ready};

use directory::Directory;
use reduce::Rows;
use refusal::Refusal;
use rows::Source;
use shape::Shape;

mod directory;
pub mod promises;
mod reduce;
mod shape;

// What `eliminate` answers: how many pivots there are, how many additions it took, and whether a row was left empty with constant 1: a flag and
// no Result, since the counts stand then too.
#[derive(Clone, Copy)]
pub struct Eliminated {
    pub rank: usize,
    pub additions: usize,
    pub refuted: bool,
}

// Reduces the rows in order, with a directory for N atoms. The first rows, as long as each is left as it is, have a loop of their own, which keeps all it
// needs in registers: inlined for each size, the compiled code kept less there. (By number: a row is reduced by rows before it in the same memory, and the
// basis is a lent list whose next place `rank` says.)
#[inline(never)]
fn eliminate_rows<const N: usize>(
    shape: Shape,
    m: usize,
    words: &mut [u64],
    constants: &mut [u8],
    basis: &mut [usize],
) -> Eliminated
    requires size { N ≤ 512 }
    requires covers { shape.width * 64 ≤ N }
    requires ready { Ready shape m words.old constants.old basis.old }
    requires fits { WordsFit words.old }
    ensures { outcome result words.new constants.new basis.new ≡ written shape.width (eliminated shape.atoms (rows_to shape.atoms shape.width words.old constants.old m)) words.old constants.old basis.old }
{
    let mut rows = Rows {
        shape,
        words,
        constants,
    };
    let mut directory = Directory::<N>::empty();
    let mut rank = 0;
    let mut additions = 0;
    for s in 0..m {
        let Some(pivot) = rows.left_as_is(Source(s), &directory) else {
            break;
        };
        directory.enter(pivot, Source(s));
        basis[s] = s;
        rank += 1;
    }
    for t in rank..m {
        let row = rows.reduce(Source(t), &directory);
        additions += row.additions;
        match row.pivot {
            Some(pivot) => {
                directory.enter(pivot, Source(t));
                basis[rank] = t;
                rank += 1;
            }
            None => {
                if rows.constants[t] == 1 {
                    return Eliminated {
                        rank,
                        additions,
                        refuted: true,
                    };
                }
            }
        }
    }
    Eliminated {
        rank,
        additions,
        refuted: false,
    }
}

// Whether what is lent is fit. (`parity` checks more lists in the same order, its own between the two tests of the rows, as here: a function of what
// else may be short would say more than both.)
#[tactic(auto, unfolding(crate::specs::Eliminate::eliminate_check, fit::specs::Rows::rows_check))]
fn check(n: usize, m: usize, rows: &[u64], constants: &[u8], basis: &[usize]) -> Result<(), Refusal>
    ensures { result ≡ eliminate_check n m rows.now constants.now basis.now }
{
    let rows_fit = fit::check_rows(n, m, rows, constants);
    if rows_fit == Err(Refusal::Overfull) {
        return rows_fit;
    }
    if basis.len() < m.min(n) {
        return Err(Refusal::Short);
    }
    rows_fit
}

// Reduces fit rows, with as large a directory as the atoms need: a smaller one is sooner cleared.
fn eliminate_fit(
    n: usize,
    m: usize,
    rows: &mut [u64],
    constants: &mut [u8],
    basis: &mut [usize],
) -> Eliminated
    requires { eliminate_check n m rows.old constants.old basis.old ≡ Ok tt }
    ensures { let w = width_of n in outcome result rows.new constants.new basis.new ≡ written w (eliminated n (rows_to n w rows.old constants.old m)) rows.old constants.old basis.old }
{
    let shape = Shape::of(n);
    if n <= 64 {
        return eliminate_rows::<64>(shape, m, rows, constants, basis);
    }
    if n <= 128 {
        return eliminate_rows::<128>(shape, m, rows, constants, basis);
    }
    eliminate_rows::<512>(shape, m, rows, constants, basis)
}

// Reduces m rows over n atoms in place, writes the basis, and says how many pivots and additions there were. "Rows in order; while a row has a lowest
// atom whose pivot is an earlier row, that row is added (XOR, constants too; one addition)." All is passed one by one, as `prepare` is lent it by C.
#[tactic(auto, unfolding(crate::specs::Eliminate::eliminate_of))]
pub fn eliminate(
    n: usize,
    m: usize,
    rows: &mut [u64],
    constants: &mut [u8],
    basis: &mut [usize],
) -> Result<Eliminated, Refusal>
    ensures { outcome result rows.new constants.new basis.new ≡ eliminate_of n m rows.old constants.old basis.old }
{
    check(n, m, rows, constants, basis)?;
    Ok(eliminate_fit(n, m, rows, constants, basis))
}
