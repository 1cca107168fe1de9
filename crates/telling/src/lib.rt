// The desk program's verdicts, in words for people: a line for each vertex, after a miss the releases that show it, then the counts and whether the
// table may go out. Where it is asked for, after a meets the releases that make it so late.
#![tactic(auto)]

mod ending;
mod line;
mod masks;
mod print;
mod refusals;
mod releases;
mod tables;
mod verdicts;

ghost use Rattle.std.specs.Prelude.{◌≡◌};
ghost use Rattle.judge.specs.Whole.{answer_of};
ghost use Rattle.telling.specs.Said.{said};

use crate::ending::Ending;
use crate::line::Line;
use crate::print::say;
use crate::refusals::Refused;
use crate::tables::say_lines;
use counts::Counts;
use kinds::{Refusal, RefusedAt};
use sheet::input_too_long;

fn say_not_judged() {
    say("This may NOT go out: the table can't be read, so nothing was judged.\n");
}

// What follows from the lines: the last of the words.
fn say_end(text: &[u8], answer: Result<Counts, RefusedAt>) {
    match answer {
        Ok(counts) => say(Ending(counts)),
        Err(at) => {
            let number = at.place;
            say(format_args!("{}\n{}", Refused(at), Line { text, number }));
            say_not_judged();
        }
    }
}

// "A refused text or input gives only" its refusal, and "12 is checked before all". Gives the four counts that are said, or the refusal.
// `why` is a flag: the two programs differ in it alone.
#[tactic(auto, unfolding(crate::specs::Said::said))]
pub fn say_table(text: &[u8], why: bool) -> Result<Counts, RefusedAt>
    ensures { answer_of result ≡ said text.now }
{
    if input_too_long(text.len()) {
        let refusal = Refusal::InputTooLong;
        let at = RefusedAt { refusal, place: 0 };
        say(format_args!("{}\n", Refused(at)));
        say_not_judged();
        return Err(at);
    }
    let answer = say_lines(text, why);
    say_end(text, answer);
    answer
}
