// Reading a file of records: bytes, numbers of 2 and of 8 bytes, and a record's fields. Every call is total: past the end of the file a
// byte is 0.
#![tactic(auto)]

ghost use Rattle.std.specs.Prelude.{◌≡◌, ℕ, ◌+◌, ◌-◌, ◌<◌, min, length, drop};
ghost use Rattle.std.specs.Iterator.{at_most};
ghost use Rattle.hull.specs.Propose.{limit, proposal_of};
ghost use Rattle.format.specs.Bytes.{byte_at, short_at, word_at, list_from};
ghost use Rattle.format.specs.Kind.{kind_of};
ghost use Rattle.format.specs.Format.{length_at, kind_at, body_at, next_at, count_at, constant_at, atom_at, atom_count, k_at, table_word_at, table_at, decided_at, value_at};
ghost use Rattle.format.specs.Starts.{NextRecord};

use hull::Hull;
use refusal::Refusal;

// What a record is; document 01 numbers the kinds from 1 in this order. What is done with each stands in a `match` where it is done, since the kinds
// are a closed set; `_` stands for those with which nothing is done there.
#[derive(Clone, Copy, Debug, PartialEq, Eq)]
pub enum Kind {
    Atoms,
    Row,
    Table,
    Decide,
    Inspect,
    Probe,
}

// The number of a record's kind is none of 1 to 6.
#[derive(Clone, Copy, Debug, PartialEq, Eq)]
pub struct UnknownKind;

impl TryFrom<u16> for Kind {
    type Error = UnknownKind;

    ghost try_from_gives = { λ number r. r ≡ kind_of number };

    fn try_from(number: u16) -> Result<Kind, UnknownKind> {
        match number {
            1 => Ok(Kind::Atoms),
            2 => Ok(Kind::Row),
            3 => Ok(Kind::Table),
            4 => Ok(Kind::Decide),
            5 => Ok(Kind::Inspect),
            6 => Ok(Kind::Probe),
            _ => Err(UnknownKind),
        }
    }
}

// A record: its file, and where its first byte stands there. A field lies some bytes on from that.
#[derive(Clone, Copy)]
pub struct Record<'a> {
    pub file: &'a [u8],
    pub offset: usize,
}

impl<'a> Record<'a> {
    // The file from the record's i-th byte on.
    fn rest(self, i: usize) -> &'a [u8]
        ensures { result.now ≡ drop (self.entry.offset + i) self.entry.file.now }
    {
        let record = self.file.get(self.offset..).unwrap_or(&[]);
        record.get(i..).unwrap_or(&[])
    }

    // Past the end 0, here and in `short`, `word` and `atom`, and not None: that a record lies in its file is one check (`check_length` of `record`),
    // made before any of its fields counts, so a None would be a case at every reader and change no answer.
    pub fn byte(self, i: usize) -> u8
        ensures { result ≡ byte_at self.entry.file.now (self.entry.offset + i) }
    {
        self.rest(i).first().copied().unwrap_or(0)
    }

    // A number of 2 bytes.
    #[tactic(auto, unfolding(crate::specs::Bytes::short_at))]
    pub fn short(self, i: usize) -> u16
        ensures { result ≡ short_at self.entry.file.now (self.entry.offset + i) }
    {
        match self.rest(i) {
            [] => 0,
            [low] => u16::from(*low),
            [low, high, ..] => u16::from_le_bytes([*low, *high]),
        }
    }

    // A number of 8 bytes.
    #[tactic(auto, unfolding(crate::specs::Bytes::short_at, crate::specs::Bytes::word_at))]
    pub fn word(self, i: usize) -> u64
        ensures { result ≡ word_at self.entry.file.now (self.entry.offset + i) }
    {
        // Past the end, where i + 7 could wrap.
        if self.file.len() <= i {
            return 0;
        }
        u64::from_le_bytes(std::array::from_fn(|k| self.byte(i + k)))
    }

    // The length, which counts what follows it.
    pub fn length(self) -> u16
        ensures { result ≡ length_at self.entry.file.now self.entry.offset }
    {
        self.short(0)
    }

    pub fn kind(self) -> Result<Kind, UnknownKind>
        ensures { result ≡ kind_of (kind_at self.entry.file.now self.entry.offset) }
    {
        Kind::try_from(self.short(2))
    }

    // How many bytes the body has.
    pub fn body(self) -> u16
        ensures { result ≡ body_at self.entry.file.now self.entry.offset }
    {
        self.length().saturating_sub(2)
    }

    // The atom count of a record of that kind.
    pub fn count(self) -> u16
        ensures { result ≡ count_at self.entry.file.now self.entry.offset }
    {
        self.short(4)
    }

    // A row's constant.
    pub fn constant(self) -> u8
        ensures { result ≡ constant_at self.entry.file.now self.entry.offset }
    {
        self.byte(4)
    }

    // How many atoms a row names.
    pub fn atom_count(self) -> u16
        ensures { result ≡ atom_count self.entry.file.now self.entry.offset }
    {
        self.body().saturating_sub(1) / 2
    }

    // The i-th atom that a row or a table names. (One that the file has whole costs one comparison: the pairs do not depend on i, so a loop over atoms
    // cuts them once.)
    #[tactic(auto, unfolding(crate::specs::Bytes::short_at))]
    pub fn atom(self, i: usize) -> u16
        ensures { result ≡ atom_at self.entry.file.now self.entry.offset i }
    {
        let (atoms, _) = self.rest(5).as_chunks::<2>();
        match atoms.get(i) {
            Some(atom) => u16::from_le_bytes(*atom),
            None => self.short(i.saturating_mul(2).saturating_add(5)),
        }
    }

    // How many atoms a table names.
    pub fn k(self) -> u8
        ensures { result ≡ k_at self.entry.file.now self.entry.offset }
    {
        self.byte(4)
    }

    // The atom of a decision.
    pub fn decided(self) -> u16
        ensures { result ≡ decided_at self.entry.file.now self.entry.offset }
    {
        self.short(4)
    }

    // The value of a decision.
    pub fn value(self) -> u8
        ensures { result ≡ value_at self.entry.file.now self.entry.offset }
    {
        self.byte(6)
    }

    // Fills the lent places with the record's atoms, as many as there are places.
    pub fn read_atoms(self, atoms: &mut [usize])
        ensures { atoms.new ≡ list_from (atom_at self.entry.file.now self.entry.offset) 0 (length atoms.old) }
    {
        fill(atoms, |i| usize::from(self.atom(i)));
    }

    // Fills the lent places with a table's words, as many as there are places.
    pub fn read_words(self, words: &mut [u64])
        ensures { words.new ≡ list_from (table_word_at self.entry.file.now self.entry.offset) 0 (length words.old) }
    {
        let start = 5 + usize::from(self.k()) * 2;
        fill(words, |j| self.word(start + j * 8));
    }

    // What `propose` says of a table.
    pub fn table(self) -> Result<Hull, Refusal>
        ensures { result ≡ proposal_of limit (k_at self.entry.file.now self.entry.offset) (table_at self.entry.file.now self.entry.offset) }
    {
        let mut words = [0u64; 4];
        let k = usize::from(self.k());
        let forbidden = &mut words[..hull::table_words(k)];
        self.read_words(forbidden);
        hull::propose(k, forbidden)
    }

    // The record that begins where this one ends by its length, or at the end of the file.
    pub fn next(self) -> Record<'a>
        ensures { result ≡ record { file = self.entry.file; offset = next_at self.entry.file.now self.entry.offset } }
    {
        let end = self.offset.saturating_add(2 + usize::from(self.length()));
        Record {
            file: self.file,
            offset: end.min(self.file.len()),
        }
    }
}

// Fills each of the lent places with what `value` says of its number.
#[tactic(auto, using(crate::proofs::Listing::fill_next), unfolding(crate::specs::Bytes::list_from))]
fn fill<T: Copy, F: Fn(usize) -> T>(places: &mut [T], value: F)
    requires { (i : ℕ) → i < length places.old → F.pre value i }
    ensures { (number : ℕ → T) → ((i : ℕ) → i < length places.old → (v : T) → F.post value i v → v ≡ number i) → places.new ≡ list_from number 0 (length places.old) }
{
    for (i, place) in places.iter_mut().enumerate() {
        *place = value(i);
    }
}

// The records of a file, one after another.
#[derive(Clone, Copy)]
pub struct Records<'a> {
    next: Record<'a>,
}

impl<'a> Records<'a> {
    pub fn of(file: &'a [u8]) -> Records<'a>
        ensures { result.next ≡ record { file = file.entry; offset = 0 } }
    {
        Records {
            next: Record { file, offset: 0 },
        }
    }
}

impl<'a> Iterator for Records<'a> {
    type Item = Record<'a>;

    ghost next_gives = { NextRecord };

    ghost remaining = { λ s. at_most (length s.next.file.now - s.next.offset) };

    fn next(&mut self) -> Option<Record<'a>> {
        let record = self.next;
        if record.file.len() <= record.offset {
            return None;
        }
        self.next = record.next();
        Some(record)
    }
}
