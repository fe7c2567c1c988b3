// A whole list of steps lent as words.
ghost use Rattle.std.specs.Prelude.{◌≡◌};
ghost use Rattle.step.specs.Refusals.{verdict_number};
ghost use Rattle.lists.specs.Runs.{Ran, list_of};

use dataway::fitness::is_fit_crate;
use lists::{ANSWER_WORDS, BUFFER_WORDS, STEP_WORDS};
use step::Refusal;

// A list of `count` steps, six words each, with 512 words of buffer and four words of answer a step: 9 for the whole run, then 8 where too few words are
// lent, else each step in turn. Words past theirs keep their contents. `number` tells the verdict by its number.
pub fn run_list(
    memory: &mut [u32],
    count: usize,
    steps: &[u32],
    answers: &mut [u32],
    buffers: &mut [u32],
) -> Result<(), Refusal>
    ensures ran { list_of memory.old count steps.now answers.old buffers.old
        ≡ record { verdict = result; memory = memory.new; answers = answers.new; buffers = buffers.new } }
    ensures number { verdict_number result
        ≡ verdict_number (list_of memory.old count steps.now answers.old buffers.old).verdict }
{
    if !is_fit_crate(memory) {
        return Err(Refusal::UnfitCrate);
    }
    if steps.len() / STEP_WORDS < count {
        return Err(Refusal::ShortBuffer);
    }
    if answers.len() / ANSWER_WORDS < count {
        return Err(Refusal::ShortBuffer);
    }
    if buffers.len() / BUFFER_WORDS < count {
        return Err(Refusal::ShortBuffer);
    }
    lists::run_steps(memory, count, steps, answers, buffers);
    Ok(())
}
