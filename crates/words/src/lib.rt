// Packed sets of atoms over lent words, at any width: a port of words.rs and words/storage.rs.
// Every call is total. Where the Rust panics (an atom past the end, slices of unequal length, more bits than a usize counts),
// nothing is changed and the answer says so: a call that changes a set has nothing else to answer, so it says whether it could by a bool, as C
// is told. specs/Calls.antt has each call's definition.
#![tactic(auto)]

ghost use Rattle.std.specs.Prelude.{◌≡◌, ◌<◌, ◌^◌, ℕ, ◌/◌, ◌≢◌, MatchResult, length, replicate, eqb, ltb};
ghost use Rattle.std.specs.Iterator.{at_most};
ghost use Rattle.std.specs.Int.Bits.{bit_or, bit_xor};
ghost use Rattle.std.specs.Int.Count.{ones};
ghost use Rattle.words.specs.Set.{set_of, has};
ghost use Rattle.words.specs.declared.Unfit.TheVariants.{Unequal};
ghost use Rattle.words.specs.Calls.{place_of, Visits, inserted, merged, subset_of, parity_of, count_of, intersection_of, first_of};

pub mod promises;

// This many words have more bits than a usize counts.
const TOO_WIDE: usize = 0x0400_0000_0000_0000;

// Where an atom stands: its word, and its bit in that word.
#[repr(C)]
#[derive(Clone, Copy)]
pub struct Place {
    pub word: usize,
    pub bit: u64,
}

// The set bits of one word that are still to be visited, from the lowest up.
#[derive(Clone, Copy)]
pub struct SetBits {
    pub remaining: u64,
}

// Why a call gives no answer: two sets differ in length, or one has more bits than a usize counts.
#[derive(Clone, Copy)]
pub enum Unfit {
    Unequal,
    TooWide,
}

#[tactic(auto, using(crate::proofs::Member::one_bit))]
pub fn locate(atom: usize) -> Place
    ensures { result ≡ place_of atom }
{
    Place {
        word: atom / 64,
        bit: 1 << (atom % 64),
    }
}

// The number of set bits of one word.
pub fn popcount(word: u64) -> u32
    ensures { result ≡ ones word }
{
    u64::count_ones(word)
}

// The set bits of one word, from the lowest up.
pub fn bits(word: u64) -> SetBits
    ensures { result.remaining ≡ word }
{
    SetBits { remaining: word }
}

impl Iterator for SetBits {
    type Item = usize;

    ghost next_gives = { Visits };

    ghost remaining = { λ s. at_most (ones s.remaining) };

    fn next(&mut self) -> Option<usize> {
        let word = self.remaining;
        if word == 0 {
            return None;
        }
        self.remaining = word & (word - 1);
        Some(word.trailing_zeros() as usize)
    }
}

// An atom past the end is in no set.
#[tactic(auto, using(crate::proofs::Member::has_word, crate::proofs::Member::has_past))]
pub fn contains(words: &[u64], atom: usize) -> bool
    ensures { result ≡ has (set_of words.now) atom }
{
    let place = locate(atom);
    let word = place.word;
    if words.len() <= word {
        return false;
    }
    words[word] & place.bit != 0
}

// Adds an atom, and says whether there was room for it.
#[tactic(auto, unfolding(crate::specs::Calls::inserted))]
pub fn insert(words: &mut [u64], atom: usize) -> bool
    ensures room { result ≡ ltb (atom / 64) (length words.old) }
    ensures words { words.new ≡ inserted words.old atom }
{
    let place = locate(atom);
    let word = place.word;
    if words.len() <= word {
        return false;
    }
    words[word] |= place.bit;
    true
}

// Takes every atom out.
pub fn clear(words: &mut [u64])
    ensures { words.new ≡ replicate (length words.old) 0 }
{
    words.fill(0);
}

// Joins two sets of one length word by word, and says whether they are of one length. (By place in `right`: tried, after `iter_mut` with `zip` a proof
// knows the length of what was written, and not the entries.)
fn merge<F: Fn(u64, u64) -> u64>(left: &mut [u64], right: &[u64], op: F) -> bool
    requires { F.IsAlwaysCallable op }
    ensures equal { result ≡ eqb (length left.old) (length right.now) }
    ensures words { (f : ℕ → ℕ → ℕ) → ((a b : ℕ) → a < 2 ^ 64 → b < 2 ^ 64 → (r : ℕ) → F.post op a b r → r ≡ f a b) → left.new ≡ merged f left.old right.now }
{
    if left.len() != right.len() {
        return false;
    }
    for (i, word) in left.iter_mut().enumerate() {
        *word = op(*word, right[i]);
    }
    true
}

// Adds the atoms of `right` to `left`, and says whether the two are of one length.
pub fn union_assign(left: &mut [u64], right: &[u64]) -> bool
    ensures equal { result ≡ eqb (length left.old) (length right.now) }
    ensures words { left.new ≡ merged bit_or left.old right.now }
{
    merge(left, right, |a, b| a | b)
}

// Replaces `left` by the atoms that are in just one of the two, and says whether they are of one length.
pub fn xor_assign(left: &mut [u64], right: &[u64]) -> bool
    ensures equal { result ≡ eqb (length left.old) (length right.now) }
    ensures words { left.new ≡ merged bit_xor left.old right.now }
{
    merge(left, right, |a, b| a ^ b)
}

// Whether two sets are of one length, as the calls below need it.
fn alike(left: &[u64], right: &[u64]) -> Result<(), Unfit>
    ensures { MatchResult result (λ _. length left.now ≡ length right.now) (λ e. (e ≡ Unequal) × (length left.now ≢ length right.now)) }
{
    if left.len() == right.len() {
        Ok(())
    } else {
        Err(Unfit::Unequal)
    }
}

// Whether every atom of `left` is in `right`.
#[tactic(auto, unfolding(crate::specs::Calls::subset_of))]
pub fn is_subset_of(left: &[u64], right: &[u64]) -> Result<bool, Unfit>
    ensures { result ≡ subset_of left.now right.now }
{
    alike(left, right)?;
    Ok(left.iter().zip(right).all(|(x, y)| *x & *y == *x))
}

// Whether an odd number of atoms is in both. (By place in `right`: with `zip` the compiled loop takes one word at a time.)
#[tactic(auto, unfolding(crate::specs::Calls::parity_of))]
pub fn intersection_parity(left: &[u64], right: &[u64]) -> Result<bool, Unfit>
    ensures { result ≡ parity_of left.now right.now }
{
    alike(left, right)?;
    let mut sum = 0u64;
    for (i, word) in left.iter().enumerate() {
        sum ^= *word & right[i];
    }
    Ok(sum.count_ones() % 2 == 1)
}

// How many atoms are in both.
#[tactic(auto, unfolding(crate::specs::Calls::intersection_of))]
pub fn intersection_count(left: &[u64], right: &[u64]) -> Result<usize, Unfit>
    ensures { result ≡ intersection_of left.now right.now }
{
    alike(left, right)?;
    if left.len() >= TOO_WIDE {
        return Err(Unfit::TooWide);
    }
    Ok(
        left.iter()
            .zip(right)
            .map(|(x, y)| (*x & *y).count_ones() as usize)
            .sum(),
    )
}

// How many atoms the set has.
#[tactic(auto, unfolding(crate::specs::Calls::intersection_of, crate::specs::Calls::count_of))]
pub fn count(words: &[u64]) -> Result<usize, Unfit>
    ensures { result ≡ count_of words.now }
{
    intersection_count(words, words)
}

// The lowest atom of the set, if it has one; words above it are not read.
#[tactic(auto, unfolding(crate::specs::Calls::first_of))]
pub fn first(words: &[u64]) -> Result<Option<usize>, Unfit>
    ensures { result ≡ first_of words.now }
{
    if words.len() >= TOO_WIDE {
        return Err(Unfit::TooWide);
    }
    for (i, word) in words.iter().enumerate() {
        if *word != 0 {
            return Ok(Some(i * 64 + word.trailing_zeros() as usize));
        }
    }
    Ok(None)
}
