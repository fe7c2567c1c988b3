// A list of steps lent as words, on a fit crate: one step of it, and the whole of it.
#![tactic(auto)]

ghost use Rattle.std.specs.Prelude.{◌≡◌, [], ◌∷◌, length, ◌+◌, ◌*◌, ◌≤◌, Ok};
ghost use Rattle.dataway.specs.Crate.{FitCrate};
ghost use Rattle.controller.specs.Answers.{answer_words};
ghost use Rattle.controller.specs.Steps.{leaves, gives};
ghost use Rattle.step.specs.declared.Step.{Step};
ghost use Rattle.lists.specs.Words.{reading_of, step_words, with_part, order_at};
ghost use Rattle.lists.specs.Runs.{Ran, ran_of};

use controller::Answer;
use step::{Refusal, Short, Step};

// The words of a step, of an answer and of a step's buffer.
pub const STEP_WORDS: usize = 6;

pub const ANSWER_WORDS: usize = 4;

pub const BUFFER_WORDS: usize = 512;

// The step of six words; words past its fields are not looked at. Inlined, so that the step is not handed back through memory.
#[inline(always)]
#[tactic(auto, unfolding(crate::specs::Words::reading_of, crate::specs::Words::kinds_of))]
pub fn read_step(words: &[u32]) -> Result<Step, Refusal>
    requires { length words.now ≡ 6 }
    ensures { result ≡ reading_of words.now }
{
    match *words {
        [1, n, a, f, w, ..] => Ok(Step::Command { n, a, f, w }),
        [2, n, a, v, ..] => Ok(Step::Front { n, a, v }),
        [3, ..] => Ok(Step::Z),
        [4, ..] => Ok(Step::C),
        [5, v, ..] => Ok(Step::Inhibit { v }),
        [6, ..] => Ok(Step::LookAtMe),
        [7, n, a, f, to, limit] => Ok(Step::Scan { n, a, f, to, limit }),
        [8, n, a, f, limit, tries] => Ok(Step::Repeat {
            n,
            a,
            f,
            limit,
            tries,
        }),
        [9, n, a, f, limit, ..] => Ok(Step::Stop { n, a, f, limit }),
        [10, n, a, to, limit, w] => Ok(Step::Put { n, a, to, limit, w }),
        [11, n, a, to, limit, ..] => Ok(Step::PutLent { n, a, to, limit }),
        [12, n, to, lo, hi, ..] => Ok(Step::Within { n, to, lo, hi }),
        [17, n, a, f, to, limit] => Ok(Step::Processor(Short::ShortScan { n, a, f, to, limit })),
        [18, n, a, f, limit, tries] => {
            Ok(Step::Processor(Short::ShortRepeat {
                n,
                a,
                f,
                limit,
                tries,
            }))
        }
        [19, n, a, f, limit, ..] => Ok(Step::Processor(Short::ShortStop { n, a, f, limit })),
        _ => Err(Refusal::Garbled),
    }
}

// The six words of a step.
#[tactic(auto, unfolding(crate::specs::Words::step_words))]
fn step_words(step: Step) -> [u32; STEP_WORDS]
    ensures { result ≡ step_words step }
{
    match step {
        Step::Command { n, a, f, w } => [1, n, a, f, w, 0],
        Step::Front { n, a, v } => [2, n, a, v, 0, 0],
        Step::Z => [3, 0, 0, 0, 0, 0],
        Step::C => [4, 0, 0, 0, 0, 0],
        Step::Inhibit { v } => [5, v, 0, 0, 0, 0],
        Step::LookAtMe => [6, 0, 0, 0, 0, 0],
        Step::Scan { n, a, f, to, limit } => [7, n, a, f, to, limit],
        Step::Repeat {
            n,
            a,
            f,
            limit,
            tries,
        } => [8, n, a, f, limit, tries],
        Step::Stop { n, a, f, limit } => [9, n, a, f, limit, 0],
        Step::Put { n, a, to, limit, w } => [10, n, a, to, limit, w],
        Step::PutLent { n, a, to, limit } => [11, n, a, to, limit, 0],
        Step::Within { n, to, lo, hi } => [12, n, to, lo, hi, 0],
        Step::Processor(short) => match short {
            Short::ShortScan { n, a, f, to, limit } => [17, n, a, f, to, limit],
            Short::ShortRepeat {
                n,
                a,
                f,
                limit,
                tries,
            } => [18, n, a, f, limit, tries],
            Short::ShortStop { n, a, f, limit } => [19, n, a, f, limit, 0],
        },
    }
}

// Stores a step as six words.
pub fn write_step(out: &mut [u32], step: Step)
    requires { length out.old ≡ 6 }
    ensures { out.new ≡ step_words step }
{
    out.copy_from_slice(&step_words(step));
}

// The four words of an answer.
fn answer_words(answer: Answer) -> [u32; ANSWER_WORDS]
    ensures { result ≡ answer_words answer }
{
    match answer {
        Answer::Refused(q) => [0, step::refusal_number(q), 0, 0],
        Answer::Replied(p) => [1, p.x, p.q, p.r],
        Answer::Taken(v) => [2, v, 0, 0],
        Answer::Done => [3, 1, 0, 0],
        Answer::Looked(p) => [4, p.l, p.count, p.first],
        Answer::Transferred(p) => [5, p.end, p.words, p.cycles],
        Answer::Wrote(p) => [6, p.end, p.words, p.cycles],
        Answer::Listed(count) => [7, count, 0, 0],
    }
}

// Stores an answer as four words.
pub fn write_answer(out: &mut [u32], answer: Answer)
    requires { length out.old ≡ 4 }
    ensures { out.new ≡ answer_words answer }
{
    let [kind, x, y, z] = answer_words(answer);
    out[0] = kind;
    out[1] = x;
    out[2] = y;
    out[3] = z;
}

// Step k of a lent list, with part q of the lent buffers as its own.
pub fn list_step(
    memory: &mut [u32],
    steps: &[u32],
    k: usize,
    buffers: &mut [u32],
    q: usize,
) -> Answer
    requires fit_crate { FitCrate memory.old }
    requires parts { (6 * k + 6 ≤ length steps.now) × (512 * q + 512 ≤ length buffers.old) }
    ensures answer { result ≡ (gives memory.old (order_at steps.now k buffers.old q)).answer }
    ensures memory { memory.new ≡ leaves memory.old (order_at steps.now k buffers.old q) }
    ensures buffers { buffers.new
        ≡ with_part 512 buffers.old q (gives memory.old (order_at steps.now k buffers.old q)).buffer }
    ensures fit { FitCrate memory.new }
{
    let at = STEP_WORDS * k;
    let to = at + STEP_WORDS;
    let reading = read_step(&steps[at..to]);
    let from = BUFFER_WORDS * q;
    let end = from + BUFFER_WORDS;
    controller::perform(memory, reading, &mut buffers[from..end])
}

// The first `count` steps of a lent list, one after the other.
pub fn run_steps(
    memory: &mut [u32],
    count: usize,
    steps: &[u32],
    answers: &mut [u32],
    buffers: &mut [u32],
)
    requires fit_crate { FitCrate memory.old }
    requires room { (6 * count ≤ length steps.now) × (4 * count ≤ length answers.old) × (512 * count ≤ length buffers.old) }
    ensures { ran_of memory.old count steps.now answers.old buffers.old
        ≡ record { verdict = Ok tt; memory = memory.new; answers = answers.new; buffers = buffers.new } }
{
    for k in 0..count {
        let answer = list_step(memory, steps, k, buffers, k);
        let from = ANSWER_WORDS * k;
        let end = from + ANSWER_WORDS;
        write_answer(&mut answers[from..end], answer);
    }
}
