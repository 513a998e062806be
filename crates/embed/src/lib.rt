// A hull's equations written as rows over the atoms that its table names, in lent rows and constants, all passed one by one, as C lends them.
#![tactic(auto)]

ghost use Rattle.std.specs.Prelude.{◌≡◌, ◌++◌, cond, ◌&&◌, ◌+◌, ◌*◌, ◌≤◌, length, take, drop, replicate, leb};
ghost use Rattle.hull.specs.Propose.{limit};
ghost use Rattle.embed.specs.Written.{marked, names_within, writable, written_words, written_constants};

use hull::{Hull, LIMIT, LocalEquation};
use rows::Source;

pub mod promises;

// Writes one row: the atoms named by the set bits of the coefficients, bit i for the i-th name; a bit past the names names nothing. (`load` writes rows
// too, of the atoms that a record names: the two share no more than the calls of `words`.)
#[tactic(auto, using(crate::proofs::Marking::marked_set, crate::proofs::Marking::marked_left, crate::proofs::Marking::marked_end))]
fn write_row(row: &mut [u64], coefficients: u8, names: &[usize])
    ensures { row.new ≡ marked names.now coefficients (replicate (length row.old) 0) }
{
    words::clear(row);
    let mut rest = coefficients;
    for name in names {
        if rest % 2 == 1 {
            words::insert(row, *name);
        }
        rest /= 2;
    }
}

fn names_within(names: &[usize], width: usize) -> bool
    ensures { result ≡ names_within width names.now }
{
    names.iter().all(|name| *name / 64 < width)
}

// Whether `count` rows from row `first` on lie within the rows and the constants.
fn can_write(words: usize, constants: usize, width: usize, count: usize, first: Source) -> bool
    ensures { result ≡ (leb count limit && (leb (first.0 + count) constants && leb ((first.0 + count) * width) words)) }
{
    count <= LIMIT
        && rows::lie_within(constants, 1, first.0, count)
        && rows::lie_within(words, width, first.0, count)
}

// Writes equations, one row after another. (By number: rows of no words are no chunks.)
fn write_rows(
    equations: &[LocalEquation],
    names: &[usize],
    width: usize,
    rows: &mut [u64],
    constants: &mut [u8],
    first: Source,
)
    requires constants { first.0 + length equations.now ≤ length constants.old }
    requires words { (first.0 + length equations.now) * width ≤ length rows.old }
    ensures words { rows.new ≡ written_words width rows.old equations.now names.now first }
    ensures constants { constants.new ≡ written_constants constants.old equations.now first }
{
    for (i, equation) in equations.iter().enumerate() {
        let row = first.0 + i;
        let start = row * width;
        write_row(
            &mut rows[start..start + width],
            equation.coefficients,
            names,
        );
        constants[row] = u8::from(equation.constant);
    }
}

// Writes a hull's equations as rows over the atoms named, from row `first` on, and says whether it could. (A bool and no Result: there is nothing to
// answer with but that, and C is told it as a number.)
pub fn write(
    hull: Hull,
    names: &[usize],
    width: usize,
    rows: &mut [u64],
    constants: &mut [u8],
    first: Source,
) -> bool
    ensures done { result ≡ writable width rows.old constants.old hull names.now first }
    ensures words { rows.new ≡ cond result (written_words width rows.old (take hull.count hull.equations) names.now first) rows.old }
    ensures constants { constants.new ≡ cond result (written_constants constants.old (take hull.count hull.equations) first) constants.old }
{
    let count = hull.count;
    if !can_write(rows.len(), constants.len(), width, count, first) {
        return false;
    }
    if !names_within(names, width) {
        return false;
    }
    write_rows(
        &hull.equations[..count],
        names,
        width,
        rows,
        constants,
        first,
    );
    true
}
