// The public calls in the form in which C has them, each with the equation of the call below it: a library, since `by_ref` stands on it.
// `ffi_c` exports them under these names, and include/worzubil.h declares them. Those of `words` and `rows` stand here, those of `hull`
// and `embed` in hulls.rt, those of `parity` and `index` in prepares.rt, those of `region`, `snapshot` and `inspect` in inspects.rt, that of
// `probe` in probes.rt, those on files in files.rt.
// A row's number, a place of the basis and an atom are plain numbers here. specs/Answers.antt says how each answer is told.
#![tactic(auto)]

ghost use Rattle.std.specs.Prelude.{◌≡◌, [], MatchOption, MatchResult, unwrap_or, cond, ◌/◌, length, take, drop, replicate, eqb, ltb};
ghost use Rattle.std.specs.Int.Bits.{bit_or, bit_xor};
ghost use Rattle.std.specs.Int.Count.{ones};
ghost use Rattle.words.specs.Set.{set_of, has};
ghost use Rattle.words.specs.Calls.{place_of, next_of, inserted, merged, subset_of, parity_of, count_of, intersection_of, first_of};
ghost use Rattle.rows.specs.Flat.{width_of};
ghost use Rattle.rows.specs.Calls.{source_of, row_of, lowest_of, overlap_parity_of, overlap_count_of, addable, added_words, added_constants};
ghost use Rattle.refusal.specs.Refusal.{number_in};
ghost use Rattle.ffi.specs.Answers.{answer, yes_answer, unfit_answer, set_bits, row_number, basis_place, next_answer, found_answer, counted_answer, verdict_answer, entry_answer, lowest_answer, parity_answer, overlap_answer, span_answer, span_of};

use refusal::Refusal;

pub mod files;
pub mod hulls;
pub mod inspects;
pub mod prepares;
pub mod probes;

// An answer: kind 0 with its value (of a yes or no: 1 or 0), 1 nothing there, 2 unfit, 3 more bits than a usize numbers. Kinds and refusals are
// numbers beside a value, here and in the other files, since C reads them so.
#[repr(C)]
#[derive(Clone, Copy)]
pub struct Answer {
    pub kind: usize,
    pub value: usize,
}

// A visit's step: kind 0 with a bit and the word without it, or 1 where no bit is left.
#[repr(C)]
#[derive(Clone, Copy)]
pub struct Step {
    pub kind: usize,
    pub bit: usize,
    pub remaining: u64,
}

// A row's place among the words, or a column's in the index: kind 0 with its start and length, or 2 where it is not there.
#[repr(C)]
#[derive(Clone, Copy)]
pub struct Span {
    pub kind: usize,
    pub start: usize,
    pub length: usize,
}

// A start and a length, where there are words.
impl From<Option<(usize, usize)>> for Span {
    ghost from_gives = { λ place told. told ≡ span_answer place };

    fn from(place: Option<(usize, usize)>) -> Span {
        match place {
            Some((start, length)) => Span {
                kind: 0,
                start,
                length,
            },
            None => Span {
                kind: 2,
                start: 0,
                length: 0,
            },
        }
    }
}

// A number, an atom, a row's number, and a yes or no: each an answer with its value.
impl From<usize> for Answer {
    ghost from_gives = { λ n a. a ≡ answer 0 n };

    fn from(value: usize) -> Answer {
        Answer { kind: 0, value }
    }
}

impl From<bool> for Answer {
    ghost from_gives = { λ b a. a ≡ yes_answer b };

    fn from(yes: bool) -> Answer {
        Answer::from(usize::from(yes))
    }
}

impl From<rows::Atom> for Answer {
    ghost from_gives = { λ atom a. a ≡ answer 0 atom.0 };

    fn from(atom: rows::Atom) -> Answer {
        Answer::from(atom.0)
    }
}

impl From<rows::Source> for Answer {
    ghost from_gives = { λ number a. a ≡ answer 0 number.0 };

    fn from(number: rows::Source) -> Answer {
        Answer::from(number.0)
    }
}

// Why there is none.
impl From<words::Unfit> for Answer {
    ghost from_gives = { λ unfit a. a ≡ unfit_answer unfit };

    fn from(unfit: words::Unfit) -> Answer {
        match unfit {
            words::Unfit::Unequal => Answer { kind: 2, value: 0 },
            words::Unfit::TooWide => Answer { kind: 3, value: 0 },
        }
    }
}

impl From<rows::Outside> for Answer {
    ghost from_gives = { λ _ a. a ≡ answer 2 0 };

    fn from(_outside: rows::Outside) -> Answer {
        Answer { kind: 2, value: 0 }
    }
}

// What is there, or that nothing is.
impl<T: Into<Answer>> From<Option<T>> for Answer {
    ghost from_gives = { λ o a. MatchOption o (a ≡ answer 1 0) (λ v. T.converts v a) };

    fn from(found: Option<T>) -> Answer {
        match found {
            Some(value) => value.into(),
            None => Answer { kind: 1, value: 0 },
        }
    }
}

// What a call gives, or why it gives nothing.
impl<T: Into<Answer>, E: Into<Answer>> From<Result<T, E>> for Answer {
    ghost from_gives = { λ r a. MatchResult r (λ v. T.converts v a) (λ e. E.converts e a) };

    fn from(outcome: Result<T, E>) -> Answer {
        match outcome {
            Ok(value) => value.into(),
            Err(refusal) => refusal.into(),
        }
    }
}

// The number under which a check refuses, or 0. (No From: std's `usize` and Result cannot get one here.)
fn number(check: Result<(), Refusal>) -> usize
    ensures { result ≡ number_in check }
{
    match check {
        Ok(()) => 0,
        Err(refusal) => refusal.number(),
    }
}

pub fn worzubil_locate(atom: usize) -> words::Place
    ensures { result ≡ place_of atom }
{
    words::locate(atom)
}

pub fn worzubil_popcount(word: u64) -> u32
    ensures { result ≡ ones word }
{
    words::popcount(word)
}

// One step of the visit of a word's set bits, from the lowest up. (No From: of `SetBits` it would take a step of the visit, which is no conversion.)
pub fn worzubil_next(word: u64) -> Step
    ensures { result ≡ next_answer (next_of (set_bits word)) }
{
    let mut bits = words::bits(word);
    match bits.next() {
        Some(bit) => Step {
            kind: 0,
            bit,
            remaining: bits.remaining,
        },
        None => Step {
            kind: 1,
            bit: 0,
            remaining: 0,
        },
    }
}

pub fn worzubil_contains(words: &[u64], atom: usize) -> bool
    ensures { result ≡ has (set_of words.now) atom }
{
    words::contains(words, atom)
}

pub fn worzubil_insert(words: &mut [u64], atom: usize) -> bool
    ensures room { result ≡ ltb (atom / 64) (length words.old) }
    ensures words { words.new ≡ inserted words.old atom }
{
    words::insert(words, atom)
}

pub fn worzubil_clear(words: &mut [u64])
    ensures { words.new ≡ replicate (length words.old) 0 }
{
    words::clear(words)
}

pub fn worzubil_union_assign(left: &mut [u64], right: &[u64]) -> bool
    ensures equal { result ≡ eqb (length left.old) (length right.now) }
    ensures words { left.new ≡ merged bit_or left.old right.now }
{
    words::union_assign(left, right)
}

pub fn worzubil_xor_assign(left: &mut [u64], right: &[u64]) -> bool
    ensures equal { result ≡ eqb (length left.old) (length right.now) }
    ensures words { left.new ≡ merged bit_xor left.old right.now }
{
    words::xor_assign(left, right)
}

pub fn worzubil_is_subset_of(left: &[u64], right: &[u64]) -> Answer
    ensures { result ≡ verdict_answer (subset_of left.now right.now) }
{
    Answer::from(words::is_subset_of(left, right))
}

pub fn worzubil_intersection_parity(left: &[u64], right: &[u64]) -> Answer
    ensures { result ≡ verdict_answer (parity_of left.now right.now) }
{
    Answer::from(words::intersection_parity(left, right))
}

pub fn worzubil_intersection_count(left: &[u64], right: &[u64]) -> Answer
    ensures { result ≡ counted_answer (intersection_of left.now right.now) }
{
    Answer::from(words::intersection_count(left, right))
}

pub fn worzubil_count(words: &[u64]) -> Answer
    ensures { result ≡ counted_answer (count_of words.now) }
{
    Answer::from(words::count(words))
}

pub fn worzubil_first(words: &[u64]) -> Answer
    ensures { result ≡ found_answer (first_of words.now) }
{
    Answer::from(words::first(words))
}

pub fn worzubil_width(atoms: usize) -> usize
    ensures { result ≡ width_of atoms }
{
    rows::width(atoms)
}

pub fn worzubil_source_at(basis: &[usize], place: usize) -> Answer
    ensures { result ≡ entry_answer (source_of basis.now (basis_place place)) }
{
    Answer::from(rows::source_at(basis, rows::Ordinal(place)))
}

// The words of a row, told by their place: a row that does not lie within has none.
#[tactic(auto, unfolding(crate::specs::Answers::span_of, rows::specs::Calls::part_of))]
pub fn worzubil_row(rows: &[u64], width: usize, number: usize) -> Span
    ensures place { result ≡ span_of width rows.now (row_number number) }
    ensures words { take result.length (drop result.start rows.now) ≡ unwrap_or (row_of width rows.now (row_number number)) [] }
{
    let words = rows::row(rows, width, rows::Source(number));
    Span::from(words.map(|words| (number * width, words.len())))
}

pub fn worzubil_lowest_atom(rows: &[u64], width: usize, number: usize) -> Answer
    ensures { result ≡ lowest_answer (lowest_of width rows.now (row_number number)) }
{
    Answer::from(rows::lowest_atom(rows, width, rows::Source(number)))
}

pub fn worzubil_overlap_parity(rows: &[u64], width: usize, number: usize, mask: &[u64]) -> Answer
    ensures { result ≡ parity_answer (overlap_parity_of width rows.now (row_number number) mask.now) }
{
    Answer::from(rows::overlap_parity(rows, width, rows::Source(number), mask))
}

pub fn worzubil_overlap_count(rows: &[u64], width: usize, number: usize, mask: &[u64]) -> Answer
    ensures { result ≡ overlap_answer (overlap_count_of width rows.now (row_number number) mask.now) }
{
    Answer::from(rows::overlap_count(rows, width, rows::Source(number), mask))
}

pub fn worzubil_add(
    rows: &mut [u64],
    constants: &mut [u8],
    width: usize,
    target: usize,
    source: usize,
) -> bool
    ensures done { result ≡ addable width rows.old constants.old (row_number target) (row_number source) }
    ensures rows { rows.new ≡ cond result (added_words width rows.old (row_number target) (row_number source)) rows.old }
    ensures constants { constants.new ≡ cond result (added_constants constants.old (row_number target) (row_number source)) constants.old }
{
    rows::add(
        rows,
        constants,
        width,
        rows::Source(target),
        rows::Source(source),
    )
}
