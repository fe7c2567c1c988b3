// THE C LIBRARY: the open calls for programs in C, Fortran or Python, on their own arrays of words and bytes. A slice is a pointer and a length in C,
// and `include/pagontxu.h` declares the functions so. Each returns 0, or the number of its refusal.
#![tactic(auto)]

ghost use Rattle.std.specs.Prelude.{◌≡◌, ◌++◌, length, drop, ◌≤◌};
ghost use Rattle.controller.specs.Answers.{answer_words};
ghost use Rattle.controller.specs.Steps.{order, performed, step_of};
ghost use Rattle.lists.specs.Words.{reading_of};
ghost use Rattle.capi.specs.Calls.{unless_unfit, answer_number, Called, step_call, line_call, CrateCalled, crate_call, ListCalled, list_call};
ghost use Rattle.capi.specs.Windows.{flagging_number, flagging_count, WindowsCalled, windows_call};
ghost use Rattle.step.specs.Refusals.{verdict_number};

use controller::Answer;
use dataway::fitness::is_fit_crate;
use lists::{ANSWER_WORDS, STEP_WORDS};
use step::{Refusal, Step};

// A refusal of a call on a lent memory: first 9.
fn unless_unfit(memory: &[u32], q: Refusal) -> Refusal
    ensures { result ≡ unless_unfit memory.now q }
{
    if is_fit_crate(memory) {
        return q;
    }
    Refusal::UnfitCrate
}

// The number that a call with this answer returns.
fn answer_number(answer: Answer) -> u32
    ensures { result ≡ answer_number answer }
{
    match answer {
        Answer::Refused(q) => step::refusal_number(q),
        Answer::Replied(_)
        | Answer::Taken(_)
        | Answer::Done
        | Answer::Looked(_)
        | Answer::Transferred(_)
        | Answer::Wrote(_)
        | Answer::Listed(_) => 0,
    }
}

// The number that a call with this verdict returns.
fn verdict_number(verdict: Result<(), Refusal>) -> u32
    ensures { result ≡ verdict_number verdict }
{
    verdict.err().map_or(0, step::refusal_number)
}

// Stores an answer in the first four words lent for it.
fn tell(out: &mut [u32], answer: Answer) -> u32
    requires { 4 ≤ length out.old }
    ensures number { result ≡ answer_number answer }
    ensures out { out.new ≡ answer_words answer ++ drop 4 out.old }
{
    lists::write_answer(&mut out[0..ANSWER_WORDS], answer);
    answer_number(answer)
}

// The step of the first six words lent.
fn run_words(memory: &mut [u32], words: &[u32], buffer: &mut [u32]) -> Answer
    requires { 6 ≤ length words.now }
    ensures { step_of memory.old (order (reading_of words.now) buffer.old) ≡ performed memory.new result buffer.new }
{
    let reading = lists::read_step(&words[0..STEP_WORDS]);
    match reading {
        Ok(s) => rehearsal::run_step(memory, s, buffer),
        Err(q) => Answer::Refused(unless_unfit(memory, q)),
    }
}

// One step, lent as six words, with four words for its answer: 9, then 8 where too few are lent for either, else as the step.
pub fn pagontxu_step(
    memory: &mut [u32],
    step: &[u32],
    answer: &mut [u32],
    buffer: &mut [u32],
) -> u32
    ensures { step_call memory.old step.now answer.old buffer.old
        ≡ record { number = result; memory = memory.new; answer = answer.new; buffer = buffer.new } }
{
    if answer.len() < ANSWER_WORDS {
        return step::refusal_number(unless_unfit(memory, Refusal::ShortBuffer));
    }
    if step.len() < STEP_WORDS {
        return tell(
            answer,
            Answer::Refused(unless_unfit(memory, Refusal::ShortBuffer)),
        );
    }
    tell(answer, run_words(memory, step, buffer))
}

// One line of a run file, with four words for its answer: 9, then 8 where fewer are lent, else as the line.
pub fn pagontxu_run_line(
    memory: &mut [u32],
    line: &[u8],
    answer: &mut [u32],
    buffer: &mut [u32],
) -> u32
    ensures { line_call memory.old line.now answer.old buffer.old
        ≡ record { number = result; memory = memory.new; answer = answer.new; buffer = buffer.new } }
{
    if answer.len() < ANSWER_WORDS {
        return step::refusal_number(unless_unfit(memory, Refusal::ShortBuffer));
    }
    tell(answer, rehearsal::run_line(memory, line, buffer))
}

// One line of a crate file, after a line for the station `previous` (0 before the first).
pub fn pagontxu_crate_line(memory: &mut [u32], previous: u32, line: &[u8]) -> u32
    ensures { crate_call memory.old previous line.now ≡ record { number = result; memory = memory.new } }
{
    verdict_number(rehearsal::crate_line(memory, previous, line))
}

// A list of `count` steps, six words each, with four words of answer and 512 words of buffer a step.
pub fn pagontxu_list(
    memory: &mut [u32],
    count: usize,
    steps: &[u32],
    answers: &mut [u32],
    buffers: &mut [u32],
) -> u32
    ensures { list_call memory.old count steps.now answers.old buffers.old
        ≡ record { number = result; memory = memory.new; answers = answers.new; buffers = buffers.new } }
{
    verdict_number(rehearsal::run_list(memory, count, steps, answers, buffers))
}

// The number that a call with this answer returns.
fn flagging_number(flagging: Result<u32, Refusal>) -> u32
    ensures { result ≡ flagging_number flagging }
{
    flagging.err().map_or(0, step::refusal_number)
}

// What the word for the count holds after a call with this answer, where it held `before`: a refusal leaves it.
fn flagging_count(flagging: Result<u32, Refusal>, before: u32) -> u32
    ensures { result ≡ flagging_count flagging before }
{
    flagging.unwrap_or(before)
}

// A sheet of up to 64 windows over stations n to `to`, with 16 flag words a station and a word for the count of registers read.
pub fn pagontxu_windows(
    memory: &[u32],
    n: u32,
    to: u32,
    sheet: &[u32],
    flags: &mut [u64],
    count: &mut u32,
) -> u32
    ensures { windows_call memory.now n to sheet.now flags.old count.old
        ≡ record { number = result; flags = flags.new; count = count.new } }
{
    let flagging = rehearsal::flag_sheet(memory, n, to, sheet, flags);
    *count = flagging_count(flagging, *count);
    flagging_number(flagging)
}
