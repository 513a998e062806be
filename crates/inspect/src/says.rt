// One row read against a region, by the atoms held and the atoms open in it.
ghost use Rattle.std.specs.Prelude.{◌≡◌, ◌≤◌, ◌<◌, cond, eqb, length};
ghost use Rattle.std.specs.Int.Bits.{bit_and};
ghost use Rattle.std.specs.Int.Count.{ones};
ghost use Rattle.words.specs.Set.{set_of, low};
ghost use Rattle.inspect.specs.Steps.{reading_at};

use super::{Forced, Masks, Wrong};
use parity::Basis;
use rows::{Atom, Ordinal};

// The lowest atom that a row shares with a mask, if it shares any; how many it shares is known, so that the words are not read for none. (At most eight
// words, as a mask has: a slice's type has no length. `words::first` would need the words that both have in memory of their own. By place, which is the
// answer: with `zip` a proof has to look each turn's words up in what was yielded, as that of `apply` does.)
fn first_common(row: &[u64], mask: &[u64; 8], shared: usize) -> Option<usize>
    requires few { length row.now ≤ 8 }
    requires counted { shared ≡ ones (bit_and (set_of row.now) (set_of mask.now)) }
    ensures { let common = bit_and (set_of row.now) (set_of mask.now) in result ≡ cond (eqb common 0) None (Some (low common)) }
{
    if shared == 0 {
        return None;
    }
    for (i, word) in row.iter().enumerate() {
        let common = *word & mask[i];
        if common != 0 {
            return Some(i * 64 + u64::trailing_zeros(common) as usize);
        }
    }
    None
}

// What the row says that a place of the basis names. (The row is there, and of each mask as many words are taken as the row has, so the defaults never
// come: `unwrap` would ask for a proof of each.)
pub fn read(basis: &Basis, place: Ordinal, masks: &Masks) -> Result<Option<Forced>, Wrong>
    requires { place.0 < basis.now.rank }
    ensures { result ≡ reading_at basis.now masks.now place.0 }
{
    let Some(row) = basis.row(place) else {
        return Ok(None);
    };
    let width = row.words.len();
    let open = words::intersection_count(row.words, &masks.free[..width]).unwrap_or(0);
    if open > 1 {
        return Ok(None);
    }
    let parity = words::intersection_parity(row.words, &masks.held[..width]).unwrap_or(false);
    let constant = row.constant == 1;
    match first_common(row.words, &masks.free, open) {
        Some(atom) => Ok(Some(Forced {
            atom: Atom(atom),
            value: constant != parity,
        })),
        None if parity == constant => Ok(None),
        None => Err(Wrong),
    }
}
