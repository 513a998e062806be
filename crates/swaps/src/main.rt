// The program `swaps`: reads a file from standard input, answers it, writes the text.
#![tactic(auto)]

ghost use Rattle.std.specs.Prelude.{◌<◌, ◌≤◌, length, OnOk, IfSome};
ghost use Rattle.std.specs.Io.KnownBytes.{Appends};
ghost use Rattle.records.specs.Check.{file_limit};
ghost use Rattle.answer.specs.Answer.{room_of};
ghost use Rattle.answer.specs.Text.{text_of};

use std::io;
use std::io::{Read, Write};

// Reads a file into its memory, answers it and writes just its text. The memory has room for more than a file may be long, so that what stands behind it
// changes nothing: a longer file is refused, however long it is.
fn answer_read<R: Read, W: Write>(
    from: &mut R,
    to: &mut W,
    file: &mut [u8],
    out: &mut [u8],
) -> io::Result<()>
    requires limit { file_limit < length file.old }
    requires room { room_of (length file.old) ≤ length out.old }
    ensures { OnOk result (IfSome (R.remaining from.old) (λ bytes. Appends (W.contents to.old) (W.contents to.new) (text_of bytes))) }
{
    let n = buffer::read_full(from, file)?;
    let length = answer::answer(&file[..n], out).unwrap();
    to.write_all(&out[..length])
}

fn main(rt: HostRuntime) -> io::Result<()> {
    let mut file = buffer::filled::<65537>(0);
    let mut out = buffer::filled::<524352>(0);
    answer_read(&mut rt.stdin(), &mut rt.stdout(), &mut file, &mut out)
}
