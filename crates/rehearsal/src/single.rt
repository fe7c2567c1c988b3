// One step on a lent crate, with a lent buffer.
ghost use Rattle.std.specs.Prelude.{◌≡◌, Ok};
ghost use Rattle.controller.specs.Answers.{answer_words};
ghost use Rattle.controller.specs.Steps.{order, performed, step_of, gives};
ghost use Rattle.lists.specs.Runs.{answer_of};

use controller::Answer;
use dataway::fitness::is_fit_crate;
use step::{Refusal, Step};

// One step: 9 where the crate is not fit, else the first refusal among its fields from left to right, else 8 where the buffer is short, else its answer.
// `words` tells the answer by its numbers.
pub fn run_step(memory: &mut [u32], step: Step, buffer: &mut [u32]) -> Answer
    ensures step { step_of memory.old (order (Ok step) buffer.old) ≡ performed memory.new result buffer.new }
    ensures words { answer_words result ≡ answer_of (gives memory.old (order (Ok step) buffer.old)) }
{
    if !is_fit_crate(memory) {
        return Answer::Refused(Refusal::UnfitCrate);
    }
    controller::perform_step(memory, step, buffer)
}
