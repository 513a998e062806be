// One row reduced: "while a row has a lowest atom whose pivot is an earlier row, that row is added". The word under work stays in a local,
// and only later words are added in memory.
ghost use Rattle.std.specs.Prelude.{◌≡◌, Some, ◌==◌, not, ◌+◌, ◌*◌, ◌≤◌, ◌<◌, length, position, slice_index};
ghost use Rattle.std.specs.Int.Count.{count_trailing_zeros};
ghost use Rattle.rows.specs.Flat.{row};
ghost use Rattle.echelon.specs.Steps.{added_from, head_of, CleanRow, EmptyBefore, Listed, SameRows, ReducesWord, ReducesRow};

use crate::directory::{Directory, NewPivot};
use crate::shape::Shape;
use rows::{Atom, Source};

// The lent rows: `shape.width` words each, and their constants.
#[derive(Drop)]
pub struct Rows<'a> {
    pub shape: Shape,
    pub words: &'a mut [u64],
    pub constants: &'a mut [u8],
}

// A word of a row as it is left, and the additions that it took.
#[derive(Clone, Copy)]
struct LeftWord {
    word: u64,
    additions: usize,
}

// A row as it is left: the pivot that it becomes, unless it is empty, and the additions that it took.
#[derive(Clone, Copy)]
pub struct LeftRow {
    pub pivot: Option<NewPivot>,
    pub additions: usize,
}

// The pivot that a row becomes whose first word that is not empty is word i.
fn new_pivot(i: usize, word: u64) -> NewPivot
    requires { i < 8 }
    ensures head { result.head ≡ word }
    ensures lowest { result.lowest.0 ≡ i * 64 + count_trailing_zeros 64 word }
{
    NewPivot {
        head: word,
        lowest: Atom(i * 64 + word.trailing_zeros() as usize),
    }
}

// Adds the words of an earlier row from word i on to those of a later one: `rows::add_words`, which is private since it has a `requires`, with a place
// to begin at. Both ask that the target lies within, by its number: the row is split off from the rows before it. Where no word is left, and in a row
// of one word none is, the split would cost a tenth of the reduction.
fn add_words(rows: &mut [u64], width: usize, target: Source, source: Source, i: usize)
    requires earlier { source.0 < target.0 }
    requires within { target.0 * width + width ≤ length rows.old }
    requires place { i ≤ width }
    ensures { rows.new ≡ added_from i width rows.old target.0 source.0 }
{
    if i == width {
        return;
    }
    let (earlier, later) = rows.split_at_mut(target.0 * width);
    let start = source.0 * width;
    words::xor_assign(&mut later[i..width], &earlier[start + i..start + width]);
}

impl Rows<'_> {
    // The first word of a row that is not empty.
    fn first_word(&self, number: Source) -> Option<usize>
        requires { number.0 * self.now.shape.width + self.now.shape.width ≤ length self.now.words.now }
        ensures { result ≡ position (λ word. not (word == 0)) (row self.now.shape.width self.now.words.now number.0) }
    {
        let start = number.0 * self.shape.width;
        self.words[start..start + self.shape.width]
            .iter()
            .position(|word| *word != 0)
    }

    // Reduces word i of a row whose words before it are empty, until the word is empty or its lowest atom has no pivot. (By `while`: each addition
    // says whether there is another.)
    fn reduce_word<const N: usize>(
        &mut self,
        number: Source,
        i: usize,
        directory: &Directory<N>,
    ) -> LeftWord
        requires place { i < self.old.shape.width }
        requires clean { CleanRow self.old number.0 }
        requires empty { EmptyBefore self.old number.0 i }
        requires listed { Listed self.old number.0 directory.now.pivots }
        ensures same { SameRows self.old self.new }
        ensures left { ReducesWord self.old self.new number.0 i result.additions }
        ensures word { result.word ≡ slice_index self.new.words.now (number.0 * self.old.shape.width + i) }
        ensures done { head_of directory.now.pivots i result.word ≡ 0 }
    {
        let t = number.0;
        let width = self.shape.width;
        let words = &mut *self.words;
        let constants = &mut *self.constants;
        let at = t * width + i;
        let mut word = words[at];
        let mut additions = 0;
        while let Some(pivot) = directory.pivot_of(i, word) {
            word ^= pivot.head;
            add_words(words, width, number, pivot.source, i + 1);
            constants[t] ^= constants[pivot.source.0];
            additions += 1;
        }
        words[at] = word;
        LeftWord { word, additions }
    }

    // The pivot that a row is as it stands, whose first word that is not empty is known: its lowest atom has no pivot among the earlier rows.
    fn pivot_at<const N: usize>(
        &self,
        number: Source,
        first: usize,
        directory: &Directory<N>,
    ) -> Option<NewPivot>
        requires clean { CleanRow self.now number.0 }
        requires first { Some first ≡ position (λ word. not (word == 0)) (row self.now.shape.width self.now.words.now number.0) }
        requires listed { Listed self.now number.0 directory.now.pivots }
        ensures { (p : NewPivot) → result ≡ Some p → ReducesRow self.now self.now number.0 (Some p) 0 }
    {
        let word = self.words[number.0 * self.shape.width + first];
        match directory.pivot_of(first, word) {
            Some(_) => None,
            None => Some(new_pivot(first, word)),
        }
    }

    // The pivot that a row is as it stands, if it is one.
    pub fn left_as_is<const N: usize>(
        &self,
        number: Source,
        directory: &Directory<N>,
    ) -> Option<NewPivot>
        requires clean { CleanRow self.now number.0 }
        requires listed { Listed self.now number.0 directory.now.pivots }
        ensures { (p : NewPivot) → result ≡ Some p → ReducesRow self.now self.now number.0 (Some p) 0 }
    {
        let first = self.first_word(number)?;
        self.pivot_at(number, first, directory)
    }

    // Reduces a row until its lowest atom has no pivot among the earlier rows, or it is empty. Where it has none from the start, nothing is
    // written. (By number: what is reduced is word i of a row among all rows.)
    pub fn reduce<const N: usize>(&mut self, number: Source, directory: &Directory<N>) -> LeftRow
        requires clean { CleanRow self.old number.0 }
        requires listed { Listed self.old number.0 directory.now.pivots }
        ensures same { SameRows self.old self.new }
        ensures left { ReducesRow self.old self.new number.0 result.pivot result.additions }
    {
        let Some(first) = self.first_word(number) else {
            return LeftRow {
                pivot: None,
                additions: 0,
            };
        };
        if let Some(pivot) = self.pivot_at(number, first, directory) {
            return LeftRow {
                pivot: Some(pivot),
                additions: 0,
            };
        }
        let mut additions = 0;
        for i in first..self.shape.width {
            let left = self.reduce_word(number, i, directory);
            additions += left.additions;
            if left.word != 0 {
                return LeftRow {
                    pivot: Some(new_pivot(i, left.word)),
                    additions,
                };
            }
        }
        LeftRow {
            pivot: None,
            additions,
        }
    }
}
