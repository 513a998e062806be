// Replays recorded answers of the Rust on the compiled library, and prints how many agree. tests/pack.py packs standard input: the cases of
// `propose`, of `prepare` and of whole files, each kind after the number of its cases.
#![tactic(auto)]

use std::io;
use systems::Memory;
use tape::Tape;

mod files;
mod systems;
mod tables;
mod tape;

// Replays the cases of a kind, and prints how many agree. A case says first how many bytes it has, and all of them are to be compared.
fn replay<F: Fn(&mut Tape, &mut Memory)>(
    rt: &impl Print,
    tape: &mut Tape,
    memory: &mut Memory,
    call: &str,
    case: F,
) -> io::Result<()>
    requires { F.IsAlwaysCallable case }
{
    let asked: usize = tape.read();
    let mut agreed: usize = 0;
    for _ in 0..asked {
        let size: u64 = tape.read();
        let mut recorded = tape.part(size as usize);
        case(&mut recorded, memory);
        agreed += usize::from(recorded.is_matched());
    }
    println!(rt; "{agreed} of {asked} recorded answers of {call} agree")
}

fn main(rt: HostRuntime) -> io::Result<()> {
    let mut input = buffer::filled::<500000>(0);
    let read = buffer::read_full(&mut rt.stdin(), &mut input)?;
    let mut tape = Tape::new(&input[..read]);
    let mut memory = Memory::new();
    replay(&rt, &mut tape, &mut memory, "propose", tables::propose)?;
    replay(&rt, &mut tape, &mut memory, "prepare", systems::prepare)?;
    replay(&rt, &mut tape, &mut memory, "files", files::answer)
}
