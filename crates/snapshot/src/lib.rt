// Knowledge of the region that was inspected last, a port of snapshot.rs, and the basis rows that the decisions made since then touch. Every call is
// total: unfit arguments are refused with document 01's number. System, index, region and knowledge are passed one by one, as C lends them: other calls
// take one of them.
#![tactic(auto)]

ghost use Rattle.std.specs.Prelude.{◌≡◌, not, ◌&&◌, ◌%◌, ◌^◌, ◌≤◌, length, eqb};
ghost use Rattle.words.specs.Set.{set_of, has, subset};
ghost use Rattle.rows.specs.Flat.{unpack};
ghost use Rattle.refusal.specs.Refusal.{number_in};
ghost use Rattle.index.specs.Column.{column_check};
ghost use Rattle.snapshot.specs.Knowledge.{fresh, published, publish_of, overfull_by, unequal, missing};
ghost use Rattle.snapshot.specs.Steps.{Adds};
ghost use Rattle.snapshot.specs.Touch.{marks, touched_of, ordinals_of, last_check, touched_check, selected_of};

use fit::LIMIT;
use parity::System;
use refusal::Refusal;
use region::Region;
use rows::Atom;

pub mod promises;

// The region of the last inspection that was published, if any was: a flag beside its values and no Option, since C lends this very
// record by reference.
#[repr(C)]
#[derive(Clone, Copy)]
pub struct Snapshot {
    pub initialized: bool,
    pub atoms: usize,
    pub held: [u64; 8],
    pub cut: [u64; 8],
}

// A set of basis rows, bit j of it for ordinal j.
#[repr(C)]
#[derive(Clone, Copy)]
pub struct Ordinals {
    pub words: [u64; 8],
}

impl From<Region> for Snapshot {
    ghost from_gives = { λ region known. known ≡ published region };

    fn from(region: Region) -> Snapshot {
        let Region { atoms, held, cut } = region;
        Snapshot {
            initialized: true,
            atoms,
            held,
            cut,
        }
    }
}

// Whether each atom of one mask is in the other.
fn within<'a>(left: &'a [u64; 8], right: &'a [u64; 8]) -> bool
    ensures { result ≡ subset (set_of left.now) (set_of right.now) }
{
    words::is_subset_of(left, right).unwrap_or(false)
}

impl Snapshot {
    // "Fresh knowledge is uninitialised, words and atom count 0"
    pub fn fresh() -> Snapshot
        ensures { result ≡ fresh }
    {
        Snapshot {
            initialized: false,
            atoms: 0,
            held: [0; 8],
            cut: [0; 8],
        }
    }

    // Publishes a region: "it sets the count to n". A region that is refused alters nothing.
    #[tactic(auto, unfolding(crate::specs::Knowledge::publish_of))]
    pub fn publish(self, region: Region) -> (Result<(), Refusal>, Snapshot)
        ensures { result ≡ publish_of self region }
    {
        match region.check() {
            Ok(()) => (Ok(()), Snapshot::from(region)),
            refused => (refused, self),
        }
    }

    // Whether the knowledge or the region is of more than 512 atoms, or the system of more than 512 atoms or rows.
    pub fn overfull(self, system: System, region: Region) -> bool
        ensures { result ≡ overfull_by system region self }
    {
        system.atoms > LIMIT
            || system.rows > LIMIT
            || region.atoms > LIMIT
            || (self.initialized && self.atoms > LIMIT)
    }

    // Whether system, region and knowledge differ in their atom counts.
    pub fn unequal(self, system: System, region: Region) -> bool
        ensures { result ≡ unequal system region self }
    {
        region.atoms != system.atoms || (self.initialized && self.atoms != region.atoms)
    }

    // Whether an old decision is missing from the region.
    pub fn missing(self, region: Region) -> bool
        ensures { result ≡ missing region self }
    {
        self.initialized && !(within(&self.held, &region.held) && within(&self.cut, &region.cut))
    }

    // The last checks of a call that is lent an index. (Inlined, as `select` is: else region and knowledge are copied for it.)
    #[inline(always)]
    pub fn check_last(self, system: System, index: &[u64], region: Region) -> Result<(), Refusal>
        ensures { result ≡ last_check system index.now region self }
    {
        if past_rank(system, index) {
            return Err(Refusal::Index);
        }
        if self.unequal(system, region) {
            return Err(Refusal::Unequal);
        }
        if self.missing(region) {
            return Err(Refusal::Missing);
        }
        Ok(())
    }
}

// The bits below `count` of a word.
fn first_bits(count: usize, word: u64) -> u64
    ensures { result ≡ word % 2 ^ count }
{
    if count >= 64 {
        return word;
    }
    word & ((1 << count) - 1)
}

// Keeps the rows below the rank. (`left` is how much of the rank is still to come, 64 less at each word: words past it are cleared.)
fn keep_below(rows: &mut [u64], rank: usize)
    ensures { rows.new ≡ unpack 64 (length rows.old) (set_of rows.old % 2 ^ rank) }
{
    let mut left = rank;
    for word in rows.iter_mut() {
        *word = first_bits(left, *word);
        left = left.saturating_sub(64);
    }
}

// Adds the rows that a column marks, as far as the words for them go.
fn join(rows: &mut [u64], column: &[u64])
    ensures { Adds rows.old (has (set_of column.now)) rows.new }
{
    let both = rows.len().min(column.len());
    words::union_assign(&mut rows[..both], &column[..both]);
}

// Adds the rows that the columns of the atoms below n mark, as far as the index has them.
fn join_columns(rows: &mut [u64], atoms: &[u64; 8], index: &[u64], width: usize, n: usize)
    ensures { Adds rows.old (λ j. marks (has (set_of atoms.now)) width index.now j n) rows.new }
{
    for a in region::atoms_below(atoms, n) {
        let Some(column) = index::column_at(index, width, Atom(a)) else {
            continue;
        };
        join(rows, column);
    }
}

// The basis rows, up to 512, that the decisions made since the knowledge was published touch. It checks nothing: `touched` does.
#[inline(always)]
pub fn select(rank: usize, index: &[u64], region: Region, known: Snapshot) -> Ordinals
    ensures { result ≡ ordinals_of (touched_of rank index.now region known) }
{
    if !known.initialized {
        let mut words = [0xffff_ffff_ffff_ffffu64; 8];
        keep_below(&mut words, rank);
        return Ordinals { words };
    }
    let mut atoms = region.held;
    words::union_assign(&mut atoms, &region.cut);
    words::xor_assign(&mut atoms, &known.held);
    words::xor_assign(&mut atoms, &known.cut);
    let mut words = [0u64; 8];
    join_columns(
        &mut words,
        &atoms,
        index,
        index::column_width(rank),
        region.atoms,
    );
    keep_below(&mut words, rank);
    Ordinals { words }
}

// Whether the index of a system that is not refuted has a bit from the rank on, within the columns of its atoms: false where it has not
// that many columns, or atoms or rank are above 512.
pub fn past_rank(system: System, index: &[u64]) -> bool
    ensures { result ≡ (not system.refuted && eqb (number_in (column_check index.now system.atoms system.rank (record { 0 = 0 }))) 14) }
{
    !system.refuted
        && matches!(
            index::check_column(index, system.atoms, system.rank, Atom(0)),
            Err(Refusal::Index)
        )
}

// Whether what `touched` is asked is fit: the checks of `inspect`, without those of the lists that it is not lent. (Region and knowledge by
// reference, and not inlined: else `touched` loads each of their words once more, beside what `select` loads.)
#[tactic(auto, unfolding(crate::specs::Touch::touched_check, region::specs::Calls::region_check))]
#[inline(never)]
fn check(system: System, index: &[u64], region: &Region, known: &Snapshot) -> Result<(), Refusal>
    ensures { result ≡ touched_check system index.now region.now known.now }
{
    if known.overfull(system, *region) {
        return Err(Refusal::Overfull);
    }
    if system.rank > system.rows.min(system.atoms) {
        return Err(Refusal::Basis);
    }
    if index.len() < system.atoms * index::column_width(system.rank) {
        return Err(Refusal::Short);
    }
    region.check()?;
    known.check_last(system, index, *region)
}

// The basis rows that are touched, or the refusal.
#[tactic(auto, unfolding(crate::specs::Touch::selected_of))]
pub fn touched(
    system: System,
    index: &[u64],
    region: Region,
    known: Snapshot,
) -> Result<Ordinals, Refusal>
    ensures { result ≡ selected_of system index.now region known }
{
    check(system, index, &region, &known)?;
    Ok(select(system.rank, index, region, known))
}
