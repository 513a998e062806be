// Recorded values, read or compared one after the other. A number has 2 bytes and a word 8, the lowest first; a list stands behind its length.

ghost use Rattle.std.specs.Prelude.{◌≤◌, length};

// What is left of the recording, or of a part of it, and whether all so far is as recorded. What is read past the end of the whole recording is 0; what
// is read past the end of a part before that is not as recorded.
// A flag and no Result: a case that differs is only counted, and each of some thirty reads and comparisons would have to hand one on.
#[derive(Clone, Copy)]
pub struct Tape<'a> {
    rest: &'a [u8],
    last: bool, // whether nothing of the recording stands behind it
    agrees: bool,
}

// A value that is recorded, in so many bytes.
pub trait Recorded {
    const SIZE: usize;

    fn read(tape: &mut Tape) -> Self;
}

impl Recorded for u64 {
    const SIZE: usize = 8;

    fn read(tape: &mut Tape) -> u64 {
        u64::from_le_bytes(tape.bytes())
    }
}

impl Recorded for usize {
    const SIZE: usize = 2;

    fn read(tape: &mut Tape) -> usize {
        usize::from(u16::from_le_bytes(tape.bytes()))
    }
}

impl Recorded for u8 {
    const SIZE: usize = 1;

    fn read(tape: &mut Tape) -> u8 {
        u8::from_le_bytes(tape.bytes())
    }
}

// Whether all values of a part are one value; to the end of it, so that the compiled loop takes many at a time.
fn all_are<T: Copy + PartialEq>(part: &[T], wanted: T) -> bool {
    part.iter()
        .fold(true, |same, value| same & (*value == wanted))
}

impl<'a> Tape<'a> {
    pub fn new(recorded: &'a [u8]) -> Tape<'a> {
        Tape {
            rest: recorded,
            last: true,
            agrees: true,
        }
    }

    fn bytes<const N: usize>(&mut self) -> [u8; N] {
        match self.rest.first_chunk::<N>() {
            Some(bytes) => {
                self.rest = &self.rest[N..];
                *bytes
            }
            None => self.bytes_past_end(),
        }
    }

    // The bytes that are left, fewer than asked, and 0 behind them.
    fn bytes_past_end<const N: usize>(&mut self) -> [u8; N] {
        let mut bytes = [0; N];
        for (byte, recorded) in bytes.iter_mut().zip(self.rest) {
            *byte = *recorded;
        }
        self.rest = &[];
        self.agrees = self.agrees && self.last;
        bytes
    }

    pub fn read<T: Recorded>(&mut self) -> T {
        T::read(self)
    }

    // The next so many bytes, at most those that there are, as a tape of their own.
    pub fn part(&mut self, size: usize) -> Tape<'a> {
        let (part, rest) = self.rest.split_at(size.min(self.rest.len()));
        self.agrees = self.agrees && (self.last || part.len() == size);
        self.rest = rest;
        Tape {
            rest: part,
            last: self.last && rest.is_empty(),
            agrees: true,
        }
    }

    // All that was recorded was read, and agrees.
    pub fn is_matched(&self) -> bool {
        self.agrees && self.rest.is_empty()
    }

    pub fn rest(&self) -> &'a [u8] {
        self.rest
    }

    // The next list: how many values it has, and a tape of them.
    fn list<T: Recorded>(&mut self) -> (usize, Tape<'a>) {
        let count: u16 = u16::from_le_bytes(self.bytes());
        let size = usize::from(count).saturating_mul(T::SIZE);
        (usize::from(count), self.part(size))
    }

    // Compares values: those recorded, and all further ones `other`, up to the first that differs.
    pub fn compare<T: Recorded + Copy + PartialEq>(&mut self, values: &[T], other: T) {
        let (count, mut list) = self.list::<T>();
        let (recorded, further) = values.split_at(count.min(values.len()));
        let mut agrees = count <= values.len();
        for value in recorded {
            if *value != list.read() {
                agrees = false;
                break;
            }
        }
        self.agrees = self.agrees && agrees && further.chunks(64).all(|part| all_are(part, other));
    }

    // Reads values, as many as there is room for, and says how many are recorded.
    pub fn fill_room<T: Recorded + Copy>(&mut self, values: &mut [T]) -> usize {
        let (count, mut list) = self.list::<T>();
        for value in values.iter_mut().take(count) {
            *value = list.read();
        }
        count
    }

    // Reads values, and says how many. There is to be room for all of them.
    pub fn fill<T: Recorded + Copy>(&mut self, values: &mut [T]) -> usize
        ensures { result ≤ length values.old }
    {
        let room = values.len();
        let count = self.fill_room(values);
        self.agrees = self.agrees && count <= room;
        count.min(room)
    }
}
