// Elimination over the open atoms: "Basis rows in order, decided atoms taken out, each held one flipping the constant."
// A row is reduced as a value, by a table of whole pivots, and stops at a lowest atom without one, where document 01 adds every row kept; as many rows are kept,
// and no is said at the same row (proofs/Agreed.antt).
ghost use Rattle.std.specs.Prelude.{◌≡◌, ◌≤◌, ◌<◌};
ghost use Rattle.rows.specs.Flat.{width_of};
ghost use Rattle.probe.specs.Steps.{ToldOf};

use crate::open_row::OpenRow;
use crate::pivots::Pivots;
use inspect::Masks;
use parity::Basis;

// How many rows are kept, and whether none was left empty with constant 1. The number counts on no too, so it stands beside the flag. (Not `echelon`'s
// own: its additions count for nothing here, and its flag says the contrary.)
#[derive(Clone, Copy)]
pub struct Eliminated {
    pub kept: usize,
    pub sound: bool,
}

// What is told of basis rows of W words. (By `while`: each addition says whether there is another. The word under work stands in a local too, and only words from it
// on are added. Three loops in one function: the contract of one of its own would want what the proof knows of pivots in specs/. With no atom the width is
// 0, and there is no row.)
fn eliminate_rows<const W: usize, const N: usize>(basis: &Basis, masks: &Masks) -> Eliminated
    requires width { (0 < basis.now.rank → width_of basis.now.atoms ≡ W) × (W ≤ 8) }
    requires atoms { (basis.now.atoms ≤ N) × (N ≤ 512) }
    ensures { ToldOf basis.now masks.now result }
{
    let mut pivots = Pivots::<W, N>::none();
    let mut kept = 0;
    for row in basis.in_order() {
        let mut left = OpenRow::<W>::of(&row, masks);
        let mut lowest = None;
        for i in 0..W {
            let mut word = left.words[i];
            while let Some(pivot) = pivots.pivot_of(i, word) {
                word ^= pivot.words[i];
                left.add_from(i, pivot);
            }
            if word != 0 {
                lowest = Some(i * 64 + word.trailing_zeros() as usize);
                break;
            }
        }
        match lowest {
            Some(atom) => {
                pivots.enter(atom, left);
                kept += 1;
            }
            None => {
                if left.constant == 1 {
                    return Eliminated { kept, sound: false };
                }
            }
        }
    }
    Eliminated { kept, sound: true }
}

// What is told of basis rows of two words or more: their width is known to the compiler, which unrolls what is done for each word. (Not inlined, and by value:
// where the rows are of one word, neither basis nor masks are then written to memory.)
#[inline(never)]
fn eliminate_by_width(basis: Basis, masks: Masks) -> Eliminated
    requires { 64 < basis.atoms }
    ensures { ToldOf basis.entry masks result }
{
    match rows::width(basis.atoms) {
        2 => eliminate_rows::<2, 128>(&basis, &masks),
        3 => eliminate_rows::<3, 192>(&basis, &masks),
        4 => eliminate_rows::<4, 256>(&basis, &masks),
        5 => eliminate_rows::<5, 320>(&basis, &masks),
        6 => eliminate_rows::<6, 384>(&basis, &masks),
        7 => eliminate_rows::<7, 448>(&basis, &masks),
        _ => eliminate_rows::<8, 512>(&basis, &masks),
    }
}

// What is told of the basis rows over the open atoms. (Two sizes for rows of one word: fewer pivots are sooner cleared.)
pub fn eliminate(basis: Basis, masks: Masks) -> Eliminated
    ensures { ToldOf basis.entry masks result }
{
    if basis.atoms <= 8 {
        return eliminate_rows::<1, 8>(&basis, &masks);
    }
    if basis.atoms <= 64 {
        return eliminate_rows::<1, 64>(&basis, &masks);
    }
    eliminate_by_width(basis, masks)
}
