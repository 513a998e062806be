// The small settled examples of document 01 that run. What is expected of a call is proved besides, since `expect` asks for it; what the check says
// of files is printed, and held to `stdout`.
#![tactic(auto)]

ghost use Rattle.std.specs.Prelude.{◌≡◌, [], ◌≤◌, replicate};
ghost use Rattle.parity.specs.Prepare.{lent, prepare_of};

use expected::expect;
use parity::Prepared;
use refusal::Refusal;
use region::Region;
use std::io;

mod expected;
mod table;

// Prepares what is lent as 512 constants and else no memory, each list an array of its own, as `prepare` is lent them: enough for no rows, and for 512
// without atoms.
fn prepare_nothing(n: usize, m: usize) -> Result<Prepared, Refusal>
    ensures { result ≡ (prepare_of n m (lent [] (replicate 512 0) [] [] [] [])).0 }
{
    let mut rows = [0u64; 0];
    let mut constants = [0u8; 512];
    let mut basis = [0usize; 0];
    let mut atoms = [0usize; 0];
    let mut values = [0u8; 0];
    let mut index = [0u64; 0];
    parity::prepare(
        n,
        m,
        &mut rows,
        &mut constants,
        &mut basis,
        &mut atoms,
        &mut values,
        &mut index,
    )
}

// Prints what the check says of a file of so many atoms and so many empty rows.
fn print_checked(rt: &impl Print, atoms: u16, rows: usize) -> io::Result<()>
    requires { rows ≤ 513 }
{
    let mut file = [0u8; 2571];
    let end = 6 + rows * 5;
    file[0] = 4;
    file[2] = 1;
    file[4..6].copy_from_slice(&atoms.to_le_bytes());
    for row in file[6..end].chunks_exact_mut(5) {
        row[0] = 3;
        row[2] = 2;
    }
    // The file `stdout` has 0 at 0 for a file that is fit.
    let (number, offset) = match records::check(&file[..end]) {
        Ok(_) => (0, 0),
        Err(fault) => (fault.kind.number(), fault.offset),
    };
    println!(rt; "{number} at {offset}")
}

#[tactic(auto, unfolding(words::specs::Set::packed, hull::specs::Propose::propose_check, hull::specs::Propose::proposal_of, fit::specs::Rows::strays, parity::specs::Prepare::prepare_check, parity::specs::Prepare::prepare_of, region::specs::Calls::undecided_of))]
fn main(rt: HostRuntime) -> io::Result<()> {
    let words = [0u64; 5];
    // "k=8 wants 4 words."
    expect(hull::propose(8, &words[..3]).err() == Some(Refusal::Table))?;
    expect(hull::propose(8, &words[..4]).is_ok())?;
    expect(hull::propose(8, &words[..5]).err() == Some(Refusal::Table))?;
    // "17: k above 8"
    expect(hull::propose(9, &words[..4]).err() == Some(Refusal::Table))?;
    // "n=512 taken, 513 refused; 512 rows taken, 513 refused"
    expect(prepare_nothing(512, 0).is_ok())?;
    expect(prepare_nothing(513, 0).err() == Some(Refusal::Overfull))?;
    expect(prepare_nothing(0, 512).is_ok())?;
    expect(prepare_nothing(0, 513).err() == Some(Refusal::Overfull))?;
    expect(Region::undecided(512).is_ok())?;
    expect(Region::undecided(513).err() == Some(Refusal::Overfull))?;
    print_checked(&rt, 512, 0)?;
    print_checked(&rt, 513, 0)?;
    print_checked(&rt, 0, 512)?;
    print_checked(&rt, 0, 513)
}
