// Memory of a fixed length, and what it is filled with: a byte, or what a reader gives.
#![tactic(auto)]

ghost use Rattle.std.specs.Prelude.{◌≡◌, ◌≤◌, ◌<◌, length, take, All, IfOk};
ghost use Rattle.std.specs.Io.KnownBytes.{Consumes, IsAtEnd};

use std::io;
use std::io::Read;

// So many bytes, all the same. A caller's proof knows that and the length, where it would go through the bytes of an array written out one by one.
pub fn filled<const N: usize>(byte: u8) -> [u8; N]
    ensures size { length result ≡ N }
    ensures bytes { All (λ b. b ≡ byte) result }
{
    [byte; N]
}

// Reads until the memory is full or the input ends, and says how many bytes were put at its start. A read that gives fewer is followed by another.
pub fn read_full<R: Read>(from: &mut R, memory: &mut [u8]) -> io::Result<usize>
    ensures within { IfOk result (λ n. n ≤ length memory.new) }
    ensures read { IfOk result (λ n. Consumes (R.remaining from.old) (R.remaining from.new) (take n memory.new)) }
    ensures to_the_end { IfOk result (λ n. n < length memory.new → IsAtEnd (R.remaining from.new)) }
{
    let mut taken = 0;
    // No range and no iterator: each read says how far the next one starts, and std's reading to the end wants memory that grows.
    while taken < memory.len() {
        let n = from.read(&mut memory[taken..])?;
        if n == 0 {
            break;
        }
        taken += n;
    }
    Ok(taken)
}
