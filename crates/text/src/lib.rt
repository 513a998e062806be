// Text written into lent bytes: words, decimals, and the two in turn. Every call is total: it writes what fits behind what is already
// written, and whether all of it fitted is asked once, of the whole text.
// Not by `write!`: tried in `put_decimal`, the contract did not prove, since std says what was written, and how much room is left, only where that
// answers `Ok`, and no clause says that it does.
#![tactic(auto)]

ghost use Rattle.std.specs.Prelude.{◌≡◌, ◌≤◌, min, length};
ghost use Rattle.text.specs.Text.{decimal_of, one_of, two_of};

pub mod promises;

// The bytes lent, and the place of the next one.
#[derive(Drop)]
pub struct Text<'a> {
    pub out: &'a mut [u8],
    pub at: usize,
    pub ghost within: { at ≤ length out.now },
}

impl<'a> Text<'a> {
    ghost use Rattle.text.specs.Puts.{Puts};

    // From a place on, at most the end.
    pub fn new(out: &'a mut [u8], at: usize) -> Text<'a>
        ensures same_reference { result.out.ghost_name ≡ out.entry.ghost_name }
        ensures bytes { result.out.now ≡ out.old }
        ensures place { result.at ≡ min at (length out.old) }
    {
        let at = at.min(out.len());
        Text { out, at }
    }

    // A word.
    pub fn put(&mut self, word: &[u8])
        ensures { Puts self.old word.now self.new }
    {
        let fits = word.len().min(self.out.len() - self.at);
        let end = self.at + fits;
        self.out[self.at..end].copy_from_slice(&word[..fits]);
        self.at = end;
    }

    // A number, in decimal without leading zeros.
    pub fn put_decimal(&mut self, n: usize)
        ensures { Puts self.old (decimal_of n) self.new }
    {
        if n >= 10 {
            self.put_decimal(n / 10);
        }
        self.put(&[48 + (n % 10) as u8]);
    }

    // A word, a number, a word.
    pub fn put_one(&mut self, first: &[u8], a: usize, last: &[u8])
        ensures { Puts self.old (one_of first.now a last.now) self.new }
    {
        self.put(first);
        self.put_decimal(a);
        self.put(last);
    }

    // A word, a number, a word, a number, a word.
    pub fn put_two(&mut self, first: &[u8], a: usize, middle: &[u8], b: usize, last: &[u8])
        ensures { Puts self.old (two_of first.now a middle.now b last.now) self.new }
    {
        self.put(first);
        self.put_decimal(a);
        self.put_one(middle, b, last);
    }
}
