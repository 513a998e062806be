// A basis row over the open atoms, in W words of its own.
ghost use Rattle.std.specs.Prelude.{◌≡◌, ◌≤◌, ◌<◌, length};
ghost use Rattle.echelon.specs.Steps.{WordsFit};
ghost use Rattle.probe.specs.Steps.{empty_row, opened_row, AddedFrom};

use inspect::Masks;
use parity::BasisRow;

// Its constant is as wide as a word: rows then lie without gaps, and many are cleared as one.
#[derive(Clone, Copy)]
pub struct OpenRow<const W: usize> {
    pub words: [u64; W],
    pub constant: u64,
}

impl<const W: usize> OpenRow<W> {
    pub fn empty() -> OpenRow<W>
        requires { W ≤ 8 }
        ensures { result ≡ empty_row W }
    {
        OpenRow {
            words: [0; W],
            constant: 0,
        }
    }

    // "decided atoms taken out, each held one flipping the constant"
    pub fn of(row: &BasisRow, masks: &Masks) -> OpenRow<W>
        requires { (W ≤ 8) × (length row.now.words.now ≡ W) }
        ensures row { result ≡ opened_row masks.now.held masks.now.free row.now.words.now row.now.constant }
        ensures words { (length result.words ≡ W) × WordsFit result.words }
    {
        let mut words = [0u64; W];
        let mut sum = 0u64;
        for i in 0..W {
            let word = row.words[i];
            words[i] = word & masks.free[i];
            sum ^= word & masks.held[i];
        }
        OpenRow {
            words,
            constant: u64::from(row.constant) ^ u64::from(sum.count_ones() % 2),
        }
    }

    // Adds another row from word i on.
    pub fn add_from(&mut self, i: usize, other: &OpenRow<W>)
        ensures { AddedFrom i self.old other.now self.new }
    {
        for k in i..W {
            self.words[k] ^= other.words[k];
        }
        self.constant ^= other.constant;
    }
}
