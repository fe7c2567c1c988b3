// One line of a run file on a lent crate, with a lent buffer.
ghost use Rattle.std.specs.Prelude.{◌≡◌};
ghost use Rattle.runfile.specs.Read.{read_line};
ghost use Rattle.controller.specs.Answers.{answer_words};
ghost use Rattle.controller.specs.Steps.{order, performed, step_of, gives};
ghost use Rattle.lists.specs.Runs.{answer_of};

use controller::Answer;
use dataway::fitness::is_fit_crate;
use step::Refusal;

// One line of a run file: 9, then 1 where it is garbled, then as its step. `words` tells the answer by its numbers.
pub fn run_line(memory: &mut [u32], line: &[u8], buffer: &mut [u32]) -> Answer
    ensures step { step_of memory.old (order (read_line line.now) buffer.old) ≡ performed memory.new result buffer.new }
    ensures words { answer_words result ≡ answer_of (gives memory.old (order (read_line line.now) buffer.old)) }
{
    if !is_fit_crate(memory) {
        return Answer::Refused(Refusal::UnfitCrate);
    }
    let reading = runfile::read_line(line);
    controller::perform(memory, reading, buffer)
}
