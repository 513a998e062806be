// One line each, of the answers that the calls give; by hand and not by `write!`, as `text` says.
ghost use Rattle.std.specs.Prelude.{◌≡◌};
ghost use Rattle.text.specs.Puts.{Puts};
ghost use Rattle.lines.specs.Words.{answer_word, step_word, probe_word};
ghost use Rattle.lines.specs.Lines.{probe_line, decide_line, inspect_line};

use inspect::{Inspected, Step};
use probe::Probed;
use refusal::Refusal;
use region::Answer;
use text::Text;

// How the line of a probe begins.
fn probe_word(yes: bool) -> &'static [u8]
    ensures { result.now ≡ probe_word yes }
{
    if yes { b"probe yes " } else { b"probe no " }
}

// "probe": yes or no, u, k. A refused probe says no, with u and k 0.
pub fn put_probe(text: &mut Text, probed: Result<Probed, Refusal>)
    ensures { Puts text.old (probe_line probed) text.new }
{
    match probed {
        Ok(probed) => text.put_two(
            probe_word(probed.yes),
            probed.undecided,
            b" ",
            probed.kept,
            b"\n",
        ),
        Err(_) => text.put_two(probe_word(false), 0, b" ", 0, b"\n"),
    }
}

// How the line of a decision ends.
fn answer_word(answer: Result<Answer, Refusal>) -> &'static [u8]
    ensures { result.now ≡ answer_word answer }
{
    match answer {
        Ok(Answer::Taken) => b" taken\n",
        Ok(Answer::Same) => b" same\n",
        Ok(Answer::Against) => b" against\n",
        Err(_) => b" refused\n",
    }
}

// "decide": atom, value, answer.
pub fn put_decision(text: &mut Text, atom: usize, value: usize, answer: Result<Answer, Refusal>)
    ensures { Puts text.old (decide_line atom value answer) text.new }
{
    text.put_two(b"decide ", atom, b" ", value, answer_word(answer));
}

// How the line of an inspection begins.
fn step_word(answer: Step) -> &'static [u8]
    ensures { result.now ≡ step_word answer }
{
    match answer {
        Step::Unchanged => b"inspect unchanged ",
        Step::Changed => b"inspect changed ",
        Step::Refuted => b"inspect refuted ",
    }
}

// "inspect": answer, held, cut. A refused inspection says so, with held and cut 0. What this line shares with that of a probe is `put_two`: every word
// and field is another.
pub fn put_inspection(text: &mut Text, inspected: Result<Inspected, Refusal>)
    ensures { Puts text.old (inspect_line inspected) text.new }
{
    match inspected {
        Ok(inspected) => text.put_two(
            step_word(inspected.answer),
            inspected.held,
            b" ",
            inspected.cut,
            b"\n",
        ),
        Err(_) => text.put_two(b"inspect refused ", 0, b" ", 0, b"\n"),
    }
}
