// The trigger processor's entry to the three transfers: limits from 1 to 32, 13 from 33 to 512, and otherwise what the general entry answers.
ghost use Rattle.std.specs.Prelude.{◌≡◌, Ok};
ghost use Rattle.step.specs.declared.Short.{Short};
ghost use Rattle.step.specs.declared.Step.{Step};
ghost use Rattle.controller.specs.Answers.{answer_words};
ghost use Rattle.controller.specs.Steps.{order, performed, step_of, gives};
ghost use Rattle.lists.specs.Runs.{answer_of};

use crate::single::run_step;
use controller::Answer;
use step::{Short, Step};

pub fn processor_scan(
    memory: &mut [u32],
    n: u32,
    a: u32,
    f: u32,
    to: u32,
    limit: u32,
    buffer: &mut [u32],
) -> Answer
    ensures step { step_of memory.old (order (Ok (Step.Processor (Short.ShortScan n a f to limit))) buffer.old)
        ≡ performed memory.new result buffer.new }
    ensures words { answer_words result ≡ answer_of (gives memory.old (order (Ok (Step.Processor (Short.ShortScan n a f to limit))) buffer.old)) }
{
    let step = Step::Processor(Short::ShortScan { n, a, f, to, limit });
    run_step(memory, step, buffer)
}

pub fn processor_repeat(
    memory: &mut [u32],
    n: u32,
    a: u32,
    f: u32,
    limit: u32,
    tries: u32,
    buffer: &mut [u32],
) -> Answer
    ensures step { step_of memory.old (order (Ok (Step.Processor (Short.ShortRepeat n a f limit tries))) buffer.old)
        ≡ performed memory.new result buffer.new }
    ensures words { answer_words result ≡ answer_of (gives memory.old (order (Ok (Step.Processor (Short.ShortRepeat n a f limit tries))) buffer.old)) }
{
    let step = Step::Processor(Short::ShortRepeat {
        n,
        a,
        f,
        limit,
        tries,
    });
    run_step(memory, step, buffer)
}

pub fn processor_stop(
    memory: &mut [u32],
    n: u32,
    a: u32,
    f: u32,
    limit: u32,
    buffer: &mut [u32],
) -> Answer
    ensures step { step_of memory.old (order (Ok (Step.Processor (Short.ShortStop n a f limit))) buffer.old)
        ≡ performed memory.new result buffer.new }
    ensures words { answer_words result ≡ answer_of (gives memory.old (order (Ok (Step.Processor (Short.ShortStop n a f limit))) buffer.old)) }
{
    let step = Step::Processor(Short::ShortStop { n, a, f, limit });
    run_step(memory, step, buffer)
}
