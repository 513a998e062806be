// Rows of parity equations in flat lent words: row r at r·W words of the rows, its constant at byte r of the constants. Every call is total: where a
// row, a constant or a mask does not lie within what is lent, nothing is changed and the answer says so. Rows, constants, their width, and a target
// with its source are passed one by one, as C lends them; `echelon`, which works on rows for long, has a struct of them.
#![tactic(auto)]

ghost use Rattle.std.specs.Prelude.{◌≡◌, cond, ◌&&◌, ◌+◌, ◌*◌, ◌≤◌, ◌<◌, length, leb, ltb};
ghost use Rattle.std.specs.Option.{option_copied};
ghost use Rattle.rows.specs.Flat.{width_of};
ghost use Rattle.rows.specs.Calls.{outside, source_of, part_of, row_of, union_at_of, lowest_of, overlap_parity_of, is_odd, overlap_count_of, addable, added_words, added_constants};

pub mod promises;

// A measure's number.
#[derive(Clone, Copy)]
pub struct Atom(pub usize);

// A row's place in the basis.
#[derive(Clone, Copy)]
pub struct Ordinal(pub usize);

// A row's number among the rows. Rows are read by this number alone.
#[derive(Clone, Copy)]
pub struct Source(pub usize);

// Why a call gives no answer: a row or a mask is not there, or has more bits than a usize numbers.
#[derive(Clone, Copy)]
pub struct Outside;

impl From<words::Unfit> for Outside {
    ghost from_gives = { λ _ e. e ≡ outside };

    fn from(_unfit: words::Unfit) -> Outside {
        Outside
    }
}

// W = ceil(n/64), the words of a row of n atoms.
pub fn width(atoms: usize) -> usize
    ensures { result ≡ width_of atoms }
{
    atoms.div_ceil(64)
}

// The row that a place of the basis names.
#[tactic(auto, unfolding(crate::specs::Calls::source_of))]
pub fn source_at(basis: &[usize], place: Ordinal) -> Option<Source>
    ensures { result ≡ source_of basis.now place }
{
    let number = basis.get(place.0)?;
    Some(Source(*number))
}

// Whether `count` parts of `width` words from part `first` on lie within so many words. Quotients cannot wrap, where the end of the
// parts could.
#[tactic(auto, using(crate::proofs::Places::rows_within, crate::proofs::Places::parts_within))]
pub fn lie_within(words: usize, width: usize, first: usize, count: usize) -> bool
    ensures { result ≡ leb ((first + count) * width) words }
{
    let Some(whole) = words.checked_div(width) else {
        return true;
    };
    count <= whole && first <= whole - count
}

// The part of `width` words at a place, the parts counted from 0, if it lies within. (A start that would wrap is past the end: no quotient, as
// `lie_within` has, since it is asked of each column that is visited.)
#[tactic(auto, unfolding(crate::specs::Calls::part_of))]
pub fn part(words: &[u64], width: usize, place: usize) -> Option<&[u64]>
    ensures { option_copied result ≡ part_of width words.now place }
{
    words.get(place.saturating_mul(width)..)?.get(..width)
}

// The union of word `word` of each of the first `count` parts of `width` words, if these lie within and have such a word: of the last words of rows,
// say. (The loop has no early exit and asks nothing of a word by itself: so the compiled code takes little more than a load for each.)
#[tactic(auto, unfolding(crate::specs::Calls::union_at_of), using(crate::proofs::Unions::union_start, crate::proofs::Unions::union_step))]
pub fn union_at(words: &[u64], width: usize, word: usize, count: usize) -> Option<u64>
    ensures { result ≡ union_at_of width word words.now count }
{
    if word >= width || !lie_within(words.len(), width, 0, count) {
        return None;
    }
    let mut union = 0;
    for i in 0..count {
        union |= words[i * width + word];
    }
    Some(union)
}

// The words of a row, if it lies within the rows.
pub fn row(rows: &[u64], width: usize, number: Source) -> Option<&[u64]>
    ensures { option_copied result ≡ row_of width rows.now number }
{
    part(rows, width, number.0)
}

// A row's lowest atom, if it has one; words above it are not read.
#[tactic(auto, unfolding(crate::specs::Calls::part_of, crate::specs::Calls::lowest_of, words::specs::Calls::first_of))]
pub fn lowest_atom(rows: &[u64], width: usize, number: Source) -> Result<Option<Atom>, Outside>
    ensures { result ≡ lowest_of width rows.now number }
{
    let words = row(rows, width, number).ok_or(Outside)?;
    let first = words::first(words)?;
    Ok(first.map(|a| Atom(a)))
}

// Whether the row has an odd number of the mask's atoms. Of the mask the first `width` words count.
#[tactic(auto, unfolding(crate::specs::Calls::part_of, crate::specs::Calls::overlap_parity_of, words::specs::Calls::parity_of))]
pub fn overlap_parity(
    rows: &[u64],
    width: usize,
    number: Source,
    mask: &[u64],
) -> Result<bool, Outside>
    ensures { result ≡ overlap_parity_of width rows.now number mask.now }
{
    let words = row(rows, width, number).ok_or(Outside)?;
    let mask = mask.get(..width).ok_or(Outside)?;
    Ok(words::intersection_parity(words, mask)?)
}

// The same as yes or no: no where the row or the mask is not there. (A bool and no Result: for a caller who knows that row and mask are there; no crate
// here calls it.)
pub fn overlaps_odd(rows: &[u64], width: usize, number: Source, mask: &[u64]) -> bool
    ensures { result ≡ is_odd (overlap_parity_of width rows.now number mask.now) }
{
    overlap_parity(rows, width, number, mask).unwrap_or(false)
}

// How many of the mask's atoms the row has. (Three lines as in `overlap_parity` over another call of `words`: a function of that call would say more in
// its contract than they do.)
#[tactic(auto, unfolding(crate::specs::Calls::part_of, crate::specs::Calls::overlap_count_of, words::specs::Calls::intersection_of))]
pub fn overlap_count(
    rows: &[u64],
    width: usize,
    number: Source,
    mask: &[u64],
) -> Result<usize, Outside>
    ensures { result ≡ overlap_count_of width rows.now number mask.now }
{
    let words = row(rows, width, number).ok_or(Outside)?;
    let mask = mask.get(..width).ok_or(Outside)?;
    Ok(words::intersection_count(words, mask)?)
}

// Whether a source is an earlier row than the target, and the target lies within the rows and the constants.
fn can_add(words: usize, constants: usize, width: usize, target: Source, source: Source) -> bool
    ensures { result ≡ (ltb source.0 target.0 && (ltb target.0 constants && leb (target.0 * width + width) words)) }
{
    source.0 < target.0 && target.0 < constants && lie_within(words, width, target.0, 1)
}

// Adds the words of an earlier row to a later one. (That the later row lies within is asked, and it comes by its number: it is split off from the rows
// before it.)
#[tactic(auto, unfolding(crate::specs::Calls::added_words))]
fn add_words(rows: &mut [u64], width: usize, target: Source, source: Source)
    requires { (source.0 < target.0) × (target.0 * width + width ≤ length rows.old) }
    ensures { rows.new ≡ added_words width rows.old target source }
{
    let (earlier, later) = rows.split_at_mut(target.0 * width);
    let start = source.0 * width;
    words::xor_assign(&mut later[..width], &earlier[start..start + width]);
}

// Adds an earlier row to a later one in place, constants too, and says whether it could: yes or no and no Result, since there is nothing to answer
// with.
#[tactic(auto, unfolding(crate::specs::Calls::added_constants))]
pub fn add(
    rows: &mut [u64],
    constants: &mut [u8],
    width: usize,
    target: Source,
    source: Source,
) -> bool
    ensures done { result ≡ addable width rows.old constants.old target source }
    ensures rows { rows.new ≡ cond result (added_words width rows.old target source) rows.old }
    ensures constants { constants.new ≡ cond result (added_constants constants.old target source) constants.old }
{
    if !can_add(rows.len(), constants.len(), width, target, source) {
        return false;
    }
    add_words(rows, width, target, source);
    constants[target.0] ^= constants[source.0];
    true
}
