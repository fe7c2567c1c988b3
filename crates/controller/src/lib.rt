// The crate controller: one step, judged and then done on a fit crate.
#![tactic(auto)]

ghost use Rattle.std.specs.Prelude.{◌≡◌, true, length, Ok};
ghost use Rattle.dataway.specs.Crate.{FitCrate};
ghost use Rattle.transfer.specs.Cycle.{transfer_of, buffer_after};
ghost use Rattle.step.specs.Verdict.{step_verdict, short_verdict, is_fine};
ghost use Rattle.controller.specs.Steps.{order, performed, short_of, act_of, done_of};

pub mod placing;

use dataway::lam::LamReading;
use dataway::{control, lam};
use station::Reply;
use step::{Refusal, Short, Step};
use transfer::Transfer;

// What a step answers.
#[derive(Clone, Copy)]
pub enum Answer {
    // A command: X, Q and R.
    Replied(Reply),
    // A front event: 0 not taken, 1 taken, 2 taken and a status bit went from 0 to 1, 3 the word was lost in a full buffer memory.
    Taken(u32),
    // Z, C and I.
    Done,
    // The Look-at-Me reading: L, count and first.
    Looked(LamReading),
    // A scan, a Repeat or a Stop: end, words and cycles.
    Transferred(Transfer),
    // A put: end, words used up and cycles.
    Wrote(Transfer),
    // A listing of the registers inside a window: how many there are.
    Listed(u32),
    // A step that is refused.
    Refused(Refusal),
}

// Does a step whose fields and buffer are good.
fn act(memory: &mut [u32], step: Step, buffer: &mut [u32]) -> Answer
    requires fit_crate { FitCrate memory.old }
    requires judged { is_fine (step_verdict step buffer.old) ≡ true }
    ensures { act_of memory.old step buffer.old ≡ performed memory.new result buffer.new }
{
    match step {
        Step::Command { n, a, f, w } => Answer::Replied(dataway::send(memory, n, a, f, w)),
        Step::Front { n, a, v } => Answer::Taken(dataway::front_event(memory, n, a, v)),
        Step::Z => {
            control::initialize(memory);
            Answer::Done
        }
        Step::C => {
            control::clear(memory);
            Answer::Done
        }
        Step::Inhibit { v } => {
            control::set_inhibit(memory, v);
            Answer::Done
        }
        Step::LookAtMe => Answer::Looked(lam::look_at_me(memory)),
        Step::Scan { n, a, f, to, limit } => Answer::Transferred(transfer::scan::scan(
            memory, buffer, n, a, f, to, limit,
        )),
        Step::Repeat {
            n,
            a,
            f,
            limit,
            tries,
        } => Answer::Transferred(transfer::repeat::repeat(memory, buffer, n, a, f, limit, tries)),
        Step::Stop { n, a, f, limit } => Answer::Transferred(transfer::stop::stop(
            memory, buffer, n, a, f, limit,
        )),
        Step::Put { n, a, to, limit, w } => Answer::Wrote(transfer::put::put_word(
            memory, n, a, to, limit, w,
        )),
        Step::PutLent { n, a, to, limit } => {
            Answer::Wrote(transfer::put::put_lent(memory, buffer, n, a, to, limit))
        }
        Step::Processor(short) => Answer::Transferred(act_short(memory, short, buffer)),
        Step::Within { n, to, lo, hi } => {
            Answer::Listed(windows::list_within(memory, buffer, n, to, lo, hi))
        }
    }
}

// Does a transfer at the trigger processor's entry whose fields and buffer are good: what the general entry does.
fn act_short(memory: &mut [u32], short: Short, buffer: &mut [u32]) -> Transfer
    requires fit_crate { FitCrate memory.old }
    requires judged { is_fine (short_verdict short (length buffer.old)) ≡ true }
    ensures answer { result ≡ transfer_of (short_of memory.old short) }
    ensures memory { memory.new ≡ (short_of memory.old short).memory }
    ensures buffer { buffer.new ≡ buffer_after (short_of memory.old short) buffer.old }
{
    match short {
        Short::ShortScan { n, a, f, to, limit } => {
            transfer::scan::scan(memory, buffer, n, a, f, to, limit)
        }
        Short::ShortRepeat {
            n,
            a,
            f,
            limit,
            tries,
        } => transfer::repeat::repeat(memory, buffer, n, a, f, limit, tries),
        Short::ShortStop { n, a, f, limit } => transfer::stop::stop(memory, buffer, n, a, f, limit),
    }
}

// One step on a fit crate: refused, or done.
pub fn perform_step(memory: &mut [u32], step: Step, buffer: &mut [u32]) -> Answer
    requires { FitCrate memory.old }
    ensures done { done_of memory.old (order (Ok step) buffer.old) ≡ performed memory.new result buffer.new }
    ensures fit { FitCrate memory.new }
{
    match step::judge(step, buffer) {
        Ok(()) => act(memory, step, buffer),
        Err(q) => Answer::Refused(q),
    }
}

// One reading on a fit crate: a line that is no step is refused as it says.
pub fn perform(memory: &mut [u32], reading: Result<Step, Refusal>, buffer: &mut [u32]) -> Answer
    requires { FitCrate memory.old }
    ensures done { done_of memory.old (order reading buffer.old) ≡ performed memory.new result buffer.new }
    ensures fit { FitCrate memory.new }
{
    match reading {
        Ok(step) => perform_step(memory, step, buffer),
        Err(q) => Answer::Refused(q),
    }
}
