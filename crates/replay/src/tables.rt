// A recorded table: k, its words, then what `propose` says of it: number, count, exact, and 8 times coefficients and constant.
use super::systems::Memory;
use super::tape::Tape;
use hull::Hull;
use refusal::Refusal;

// What `propose` says, as it is recorded: a refused call has its number and else 0. (No From, as in `systems`.)
fn told(said: Result<Hull, Refusal>) -> [usize; 19] {
    let mut numbers = [0usize; 19];
    let hull = match said {
        Ok(hull) => hull,
        Err(refusal) => {
            numbers[0] = refusal.number();
            return numbers;
        }
    };
    numbers[1] = hull.count;
    numbers[2] = usize::from(hull.exact);
    for (pair, e) in numbers[3..].chunks_exact_mut(2).zip(&hull.equations) {
        pair[0] = usize::from(e.coefficients);
        pair[1] = usize::from(e.constant);
    }
    numbers
}

// (Preparation's memory is passed to each kind of case, and not used here.)
pub fn propose(tape: &mut Tape, _: &mut Memory) {
    let k = tape.read();
    let mut words = [0u64; 8];
    let count = tape.fill(&mut words);
    tape.compare(&told(hull::propose(k, &words[..count])), 0);
}
