// The equations of a table: a port of hull.rs. The smallest affine set that holds the patterns which a table allows, as equations.
// (k and the table's words are passed one by one, as C lends them.) Every call is total; specs/Propose.antt has its answer, specs/Steps.antt what the
// private functions do on the way to it.
#![tactic(auto)]

ghost use Rattle.std.specs.Prelude.{◌≡◌, ℕ, ◌^◌, ◌-◌, ◌*◌, ◌/◌, ◌≤◌, ◌<◌, true, false, [], min, length, replicate, not, count_by, MatchOption};
ghost use Rattle.std.specs.Int.Count.{ones};
ghost use Rattle.std.specs.List.{range_with_len};
ghost use Rattle.words.specs.Set.{odd};
ghost use Rattle.hull.specs.Table.{forbids, allowed};
ghost use Rattle.hull.specs.Equations.{hull_from};
ghost use Rattle.hull.specs.Propose.{limit, table_words, told, proposal_of};
ghost use Rattle.hull.specs.Steps.{entered, seen, found, reach, listing};

use refusal::Refusal;

pub mod promises;

// The most atoms that a table names.
pub const LIMIT: usize = 8;

// One equation of a table: the atoms named whose bit is set add up to the constant.
#[repr(C)]
#[derive(Clone, Copy)]
pub struct LocalEquation {
    pub coefficients: u8,
    pub constant: bool,
}

// What an unused place holds.
const BLANK: LocalEquation = LocalEquation {
    coefficients: 0,
    constant: false,
};

// The equations of a table, and whether the allowed patterns are just those that meet them. Places from `count` on hold 0: C reads a fixed
// array with its count.
#[repr(C)]
#[derive(Clone, Copy)]
pub struct Hull {
    pub equations: [LocalEquation; 8],
    pub count: usize,
    pub exact: bool,
}

// The anchor, the least-bit echelon of the differences from it, and how many patterns were allowed. A pivot of 0 is none, and no Option: what enters is
// never 0, and an overlap with 0 is even, so that `equation` passes over it without a test. `rank` counts the pivots, which stand at their bits'
// places. (k is passed beside it: as a field with its bound, the definitions that make a basis of any k would have the bound in them.)
#[derive(Clone, Copy)]
struct Basis {
    anchor: u8,
    pivots: [u8; 8],
    rank: usize,
    allowed: usize,
}

// Whether an odd number of bits is set. (A named expression: no trait says it.)
fn is_odd(bits: u8) -> bool
    ensures { result ≡ odd (ones bits) }
{
    u8::count_ones(bits) % 2 == 1
}

// Reduces a difference at its set bits, from bit 0 upward, and makes what is left at the first place without a pivot that place's
// pivot. Says whether one came.
fn enter(pivots: &mut [u8], difference: u8) -> bool
    requires { length pivots.old ≤ limit }
    ensures pivots { pivots.new ≡ (entered 0 pivots.old difference).0 }
    ensures came { result ≡ (entered 0 pivots.old difference).1 }
{
    let mut left = difference;
    for (position, pivot) in pivots.iter_mut().enumerate() {
        if (left >> position) & 1 == 1 {
            if *pivot == 0 {
                *pivot = left;
                return true;
            }
            left ^= *pivot;
        }
    }
    false
}

// The equation of a place without a pivot: its bit, and those of lower pivots that make every overlap even. Higher ones have none. (The place
// is the shift too: a range says it sooner than `enumerate` with `rev`.)
fn equation(pivots: &[u8; 8], free: usize) -> u8
    requires { free < limit }
    ensures { result ≡ reach pivots.now free (2 ^ free) }
{
    let mut coefficients: u8 = 1 << free;
    for position in (0..free).rev() {
        coefficients ^= u8::from(is_odd(coefficients & pivots[position])) << position;
    }
    coefficients
}

impl Basis {
    // The first allowed pattern is the anchor.
    fn new(anchor: u8) -> Basis
        ensures { result ≡ record { anchor = anchor; pivots = replicate limit 0; rank = 0; allowed = 1 } }
    {
        Basis {
            anchor,
            pivots: [0; 8],
            rank: 0,
            allowed: 1,
        }
    }

    // One more allowed pattern: its difference from the anchor enters.
    fn see(&mut self, k: usize, pattern: u8)
        requires { (k ≤ limit) × (self.old.rank ≤ 2 ^ 8) × (self.old.allowed ≤ 2 ^ 8) }
        ensures { self.new ≡ seen k self.old pattern }
    {
        let difference = self.anchor ^ pattern;
        let came = enter(&mut self.pivots[..k], difference);
        self.rank += usize::from(came);
        self.allowed += 1;
    }

    // One equation for each place without a pivot, rising; the anchor gives its constant. (The next place is counted, since that is how many there are.)
    fn equations(&self, k: usize) -> Hull
        requires { (k ≤ limit) × (self.now.rank ≤ k) }
        ensures { result ≡ listing k self.now }
    {
        let mut equations = [BLANK; 8];
        let mut count = 0;
        for (free, pivot) in self.pivots[..k].iter().enumerate() {
            if *pivot == 0 {
                let coefficients = equation(&self.pivots, free);
                equations[count] = LocalEquation {
                    coefficients,
                    constant: is_odd(coefficients & self.anchor),
                };
                count += 1;
            }
        }
        Hull {
            equations,
            count,
            exact: self.allowed == 1 << self.rank,
        }
    }
}

// Whether a pattern is forbidden. With `words::contains` in its place, which asks at each pattern whether the table has that word, `propose` of 8 atoms
// took a quarter longer, timed when this form took 0.81 of the Rust's time, so that the other would have taken all of it.
fn is_forbidden(forbidden: &[u64], pattern: usize) -> bool
    requires { pattern / 64 < length forbidden.now }
    ensures { result ≡ forbids forbidden.now pattern }
{
    forbidden[pattern / 64] & (1 << (pattern % 64)) != 0
}

// The first of so many patterns that is allowed. (That the table has them is asked here and in the two below: as a type, of words with k, it would be
// made for `span` alone, and `propose` is lent the two apart.)
fn first_allowed(forbidden: &[u64], patterns: usize) -> Option<usize>
    requires { patterns ≤ length forbidden.now * 64 }
    ensures { MatchOption result
        ((p : ℕ) → p < patterns → forbids forbidden.now p ≡ true)
        (λ a. (a < patterns) × (forbids forbidden.now a ≡ false) × ((p : ℕ) → p < a → forbids forbidden.now p ≡ true)) }
{
    (0..patterns).find(|pattern| !is_forbidden(forbidden, *pattern))
}

// How many patterns from one on are allowed.
fn count_allowed(forbidden: &[u64], first: usize, patterns: usize) -> usize
    requires { patterns ≤ length forbidden.now * 64 }
    ensures { result ≡ count_by (λ p. not (forbids forbidden.now p)) (range_with_len first (patterns - first)) }
{
    (first..patterns)
        .filter(|pattern| !is_forbidden(forbidden, *pattern))
        .count()
}

// The span of the differences, where a pattern is allowed. (Patterns are numbers, whose bits the table has.) Full rank settles it, but not whether
// every pattern is allowed: the others are still counted.
fn span(k: usize, forbidden: &[u64]) -> Option<Basis>
    requires atoms { k ≤ limit }
    requires table { 2 ^ k ≤ length forbidden.now * 64 }
    ensures { result ≡ found k (allowed k forbidden.now) }
{
    let patterns: usize = 1 << k;
    let anchor = first_allowed(forbidden, patterns)?;
    let mut basis = Basis::new(anchor as u8);
    for pattern in anchor + 1..patterns {
        if !is_forbidden(forbidden, pattern) {
            basis.see(k, pattern as u8);
            if basis.rank == k {
                basis.allowed += count_allowed(forbidden, pattern + 1, patterns);
                return Some(basis);
            }
        }
    }
    Some(basis)
}

// No pattern is allowed: 0 = 1.
fn impossible() -> Hull
    ensures { result ≡ told limit (hull_from 0 []) }
{
    let mut equations = [BLANK; 8];
    equations[0].constant = true;
    Hull {
        equations,
        count: 1,
        exact: true,
    }
}

// How many words a table of k atoms has; above the limit as many as at it. (`index::column_width` rounds ranks up so; no crate that stands under both
// speaks of units of 128 bits.)
pub fn table_words(k: usize) -> usize
    ensures { result ≡ table_words (min k limit) }
{
    let patterns: usize = 1 << k.min(LIMIT);
    patterns.div_ceil(128) * 2
}

// The equations of the table of k atoms that forbids the patterns whose bits are set. (Inlined: else the hull is copied once more at each caller.)
#[inline(always)]
pub fn propose(k: usize, forbidden: &[u64]) -> Result<Hull, Refusal>
    ensures { result ≡ proposal_of limit k forbidden.now }
{
    if k > LIMIT || forbidden.len() != table_words(k) {
        return Err(Refusal::Table);
    }
    let hull = match span(k, forbidden) {
        None => impossible(),
        Some(basis) => basis.equations(k),
    };
    Ok(hull)
}
