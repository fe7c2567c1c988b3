// A scan on a lent crate, and where it has been.
ghost use Rattle.std.specs.Prelude.{◌≡◌, Ok};
ghost use Rattle.step.specs.declared.Step.{Step};
ghost use Rattle.controller.specs.Answers.{answer_words};
ghost use Rattle.controller.specs.Steps.{order, performed, step_of, gives};
ghost use Rattle.controller.specs.Finished.{ScanTold};
ghost use Rattle.lists.specs.Runs.{answer_of};

use crate::single::run_step;
use controller::Answer;
use step::Step;

// A scan, done as `run_step` does it. A scan that answers end 2 has commanded every station from N to `to`, those after N at A0; its cycles are the
// commands that it made.
pub fn run_scan(
    memory: &mut [u32],
    n: u32,
    a: u32,
    f: u32,
    to: u32,
    limit: u32,
    buffer: &mut [u32],
) -> Answer
    ensures step { step_of memory.old (order (Ok (Step.Scan n a f to limit)) buffer.old)
        ≡ performed memory.new result buffer.new }
    ensures words { answer_words result ≡ answer_of (gives memory.old (order (Ok (Step.Scan n a f to limit)) buffer.old)) }
    ensures been { ScanTold memory.old n a f to limit buffer.old result memory.new buffer.new }
{
    run_step(memory, Step::Scan { n, a, f, to, limit }, buffer)
}
