// One row entered in the index: "bit j of atom a's column is set when basis row j has a".
ghost use Rattle.std.specs.Prelude.{◌≡◌, ◌*◌, ◌^◌, ◌≤◌, ◌<◌, length};
ghost use Rattle.std.specs.Int.Count.{ones};
ghost use Rattle.words.specs.Set.{set_of};
ghost use Rattle.parity.specs.Entered.{Reaches, Entered};

use words::Place;

// Sets a bit in the columns of the atoms of one word, whose first atom is `base`. (The index and its stride are passed apart: a struct of them would be
// made for the loop of `enter_rows` alone.)
fn enter_word(index: &mut [u64], stride: usize, place: Place, base: usize, word: u64)
    requires wide { place.word < stride }
    requires reaches { Reaches stride (word * 2 ^ base) (length index.old) }
    ensures { Entered stride (place.bit * 2 ^ (place.word * 64)) (word * 2 ^ base) index.old index.new }
{
    for bit in words::bits(word) {
        index[(base + bit) * stride + place.word] |= place.bit;
    }
}

// Sets a bit in the columns of the atoms of one row of at most eight words, and says how many atoms it has, counted in the same pass.
pub fn enter_row(index: &mut [u64], stride: usize, place: Place, words: &[u64]) -> usize
    requires wide { place.word < stride }
    requires few { length words.now ≤ 8 }
    requires reaches { Reaches stride (set_of words.now) (length index.old) }
    ensures count { result ≡ ones (set_of words.now) }
    ensures index { Entered stride (place.bit * 2 ^ (place.word * 64)) (set_of words.now) index.old index.new }
{
    let mut count = 0;
    for (i, word) in words.iter().enumerate() {
        enter_word(index, stride, place, i * 64, *word);
        count += word.count_ones() as usize;
    }
    count
}
