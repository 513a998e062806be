// The archive for C. Each function here is one call of the function of that name in `ffi`, and states its clauses again;
// include/worzubil.h declares them, under these names. The files are those of `ffi`.
#![tactic(auto)]

ghost use Rattle.std.specs.Prelude.{◌≡◌, [], unwrap_or, cond, ◌/◌, length, take, drop, replicate, eqb, ltb};
ghost use Rattle.std.specs.Int.Bits.{bit_or, bit_xor};
ghost use Rattle.std.specs.Int.Count.{ones};
ghost use Rattle.words.specs.Set.{set_of, has};
ghost use Rattle.words.specs.Calls.{place_of, next_of, inserted, merged, subset_of, parity_of, count_of, intersection_of, first_of};
ghost use Rattle.rows.specs.Flat.{width_of};
ghost use Rattle.rows.specs.Calls.{source_of, row_of, lowest_of, overlap_parity_of, overlap_count_of, addable, added_words, added_constants};
ghost use Rattle.ffi.specs.Answers.{set_bits, row_number, basis_place, next_answer, found_answer, counted_answer, verdict_answer, entry_answer, lowest_answer, parity_answer, overlap_answer, span_of};

use ffi::{Answer, Span, Step};

pub mod files;
pub mod hulls;
pub mod inspects;
pub mod prepares;
pub mod probes;

#[unsafe(no_mangle)]
pub extern "C" fn worzubil_locate(atom: usize) -> words::Place
    ensures { result ≡ place_of atom }
{
    ffi::worzubil_locate(atom)
}

#[unsafe(no_mangle)]
pub extern "C" fn worzubil_popcount(word: u64) -> u32
    ensures { result ≡ ones word }
{
    ffi::worzubil_popcount(word)
}

// One step of the visit of a word's set bits, from the lowest up.
#[unsafe(no_mangle)]
pub extern "C" fn worzubil_next(word: u64) -> Step
    ensures { result ≡ next_answer (next_of (set_bits word)) }
{
    ffi::worzubil_next(word)
}

#[unsafe(no_mangle)]
pub extern "C" fn worzubil_contains(words: &[u64], atom: usize) -> bool
    ensures { result ≡ has (set_of words.now) atom }
{
    ffi::worzubil_contains(words, atom)
}

#[unsafe(no_mangle)]
pub extern "C" fn worzubil_insert(words: &mut [u64], atom: usize) -> bool
    ensures room { result ≡ ltb (atom / 64) (length words.old) }
    ensures words { words.new ≡ inserted words.old atom }
{
    ffi::worzubil_insert(words, atom)
}

#[unsafe(no_mangle)]
pub extern "C" fn worzubil_clear(words: &mut [u64])
    ensures { words.new ≡ replicate (length words.old) 0 }
{
    ffi::worzubil_clear(words)
}

#[unsafe(no_mangle)]
pub extern "C" fn worzubil_union_assign(left: &mut [u64], right: &[u64]) -> bool
    ensures equal { result ≡ eqb (length left.old) (length right.now) }
    ensures words { left.new ≡ merged bit_or left.old right.now }
{
    ffi::worzubil_union_assign(left, right)
}

#[unsafe(no_mangle)]
pub extern "C" fn worzubil_xor_assign(left: &mut [u64], right: &[u64]) -> bool
    ensures equal { result ≡ eqb (length left.old) (length right.now) }
    ensures words { left.new ≡ merged bit_xor left.old right.now }
{
    ffi::worzubil_xor_assign(left, right)
}

#[unsafe(no_mangle)]
pub extern "C" fn worzubil_is_subset_of(left: &[u64], right: &[u64]) -> Answer
    ensures { result ≡ verdict_answer (subset_of left.now right.now) }
{
    ffi::worzubil_is_subset_of(left, right)
}

#[unsafe(no_mangle)]
pub extern "C" fn worzubil_intersection_parity(left: &[u64], right: &[u64]) -> Answer
    ensures { result ≡ verdict_answer (parity_of left.now right.now) }
{
    ffi::worzubil_intersection_parity(left, right)
}

#[unsafe(no_mangle)]
pub extern "C" fn worzubil_intersection_count(left: &[u64], right: &[u64]) -> Answer
    ensures { result ≡ counted_answer (intersection_of left.now right.now) }
{
    ffi::worzubil_intersection_count(left, right)
}

#[unsafe(no_mangle)]
pub extern "C" fn worzubil_count(words: &[u64]) -> Answer
    ensures { result ≡ counted_answer (count_of words.now) }
{
    ffi::worzubil_count(words)
}

#[unsafe(no_mangle)]
pub extern "C" fn worzubil_first(words: &[u64]) -> Answer
    ensures { result ≡ found_answer (first_of words.now) }
{
    ffi::worzubil_first(words)
}

#[unsafe(no_mangle)]
pub extern "C" fn worzubil_width(atoms: usize) -> usize
    ensures { result ≡ width_of atoms }
{
    ffi::worzubil_width(atoms)
}

#[unsafe(no_mangle)]
pub extern "C" fn worzubil_source_at(basis: &[usize], place: usize) -> Answer
    ensures { result ≡ entry_answer (source_of basis.now (basis_place place)) }
{
    ffi::worzubil_source_at(basis, place)
}

// The words of a row, told by their place: a row that does not lie within has none.
#[unsafe(no_mangle)]
pub extern "C" fn worzubil_row(rows: &[u64], width: usize, number: usize) -> Span
    ensures place { result ≡ span_of width rows.now (row_number number) }
    ensures words { take result.length (drop result.start rows.now) ≡ unwrap_or (row_of width rows.now (row_number number)) [] }
{
    ffi::worzubil_row(rows, width, number)
}

#[unsafe(no_mangle)]
pub extern "C" fn worzubil_lowest_atom(rows: &[u64], width: usize, number: usize) -> Answer
    ensures { result ≡ lowest_answer (lowest_of width rows.now (row_number number)) }
{
    ffi::worzubil_lowest_atom(rows, width, number)
}

#[unsafe(no_mangle)]
pub extern "C" fn worzubil_overlap_parity(
    rows: &[u64],
    width: usize,
    number: usize,
    mask: &[u64],
) -> Answer
    ensures { result ≡ parity_answer (overlap_parity_of width rows.now (row_number number) mask.now) }
{
    ffi::worzubil_overlap_parity(rows, width, number, mask)
}

#[unsafe(no_mangle)]
pub extern "C" fn worzubil_overlap_count(
    rows: &[u64],
    width: usize,
    number: usize,
    mask: &[u64],
) -> Answer
    ensures { result ≡ overlap_answer (overlap_count_of width rows.now (row_number number) mask.now) }
{
    ffi::worzubil_overlap_count(rows, width, number, mask)
}

#[unsafe(no_mangle)]
pub extern "C" fn worzubil_add(
    rows: &mut [u64],
    constants: &mut [u8],
    width: usize,
    target: usize,
    source: usize,
) -> bool
    ensures done { result ≡ addable width rows.old constants.old (row_number target) (row_number source) }
    ensures rows { rows.new ≡ cond result (added_words width rows.old (row_number target) (row_number source)) rows.old }
    ensures constants { constants.new ≡ cond result (added_constants constants.old (row_number target) (row_number source)) constants.old }
{
    ffi::worzubil_add(rows, constants, width, target, source)
}
