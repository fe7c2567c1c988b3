// The lines of one step, and of a crate line that is refused, put into a lent buffer. Each call says what all of the buffer holds after it.
#![tactic(auto)]

ghost use Rattle.std.specs.Prelude.{◌≡◌, ◌++◌, ◌+◌, ◌*◌, ◌≤◌, length, take};
ghost use Rattle.text.specs.Paste.{Put};
ghost use Rattle.text.specs.Text.{bytes, decimal};
ghost use Rattle.controller.specs.declared.Answer.{Answer};
ghost use Rattle.sheet.specs.Answers.{body, step_line, word_line, word_lines, stored, step_text, crate_text};

use controller::Answer;
use step::Refusal;
use text::{put_behind, put_bytes, put_field};

// The most bytes that one step prints: a line of 66 bytes, and 512 word lines of 16.
pub const STEP_ROOM: usize = 8258;

// Puts three keys, each with a number. Inlined, so that the compiler sees how long the keys are: a line took a fifth longer without.
#[inline(always)]
fn put_three(
    out: &mut [u8],
    at: usize,
    first: (&[u8], u32),
    second: (&[u8], u32),
    third: (&[u8], u32),
) -> usize
    requires { at + length first.0.now + length second.0.now + length third.0.now + 30 ≤ length out.old }
    ensures { Put out.old at
        ((first.entry.0.now ++ decimal first.entry.1) ++ (second.entry.0.now ++ decimal second.entry.1) ++ (third.entry.0.now ++ decimal third.entry.1))
        out.new result }
{
    let after_first = put_field(out, at, first.0, first.1);
    let after_second = put_field(out, after_first, second.0, second.1);
    put_field(out, after_second, third.0, third.1)
}

// Puts the fields of an answer.
fn put_body(out: &mut [u8], at: usize, answer: Answer) -> usize
    requires { at + 50 ≤ length out.old }
    ensures { Put out.old at (body answer) out.new result }
{
    match answer {
        Answer::Replied(p) => put_three(out, at, (b" x=", p.x), (b" q=", p.q), (b" r=", p.r)),
        Answer::Taken(v) => put_field(out, at, b" taken=", v),
        Answer::Done => put_bytes(out, at, b" done=1"),
        Answer::Looked(p) => put_three(
            out,
            at,
            (b" l=", p.l),
            (b" count=", p.count),
            (b" first=", p.first),
        ),
        Answer::Transferred(p) | Answer::Wrote(p) => put_three(
            out,
            at,
            (b" end=", p.end),
            (b" words=", p.words),
            (b" cycles=", p.cycles),
        ),
        Answer::Listed(count) => put_field(out, at, b" words=", count),
        Answer::Refused(q) => put_field(out, at, b" refused=", step::refusal_number(q)),
    }
}

// Puts a key and a number: the number behind as many bytes as the key has, then the key.
#[inline(always)]
fn put_keyed(out: &mut [u8], at: usize, key: &[u8], n: u32) -> usize
    requires { at + length key.now + 10 ≤ length out.old }
    ensures { Put out.old at (key.now ++ decimal n) out.new result }
{
    let next = put_behind(out, at, key.len(), n);
    put_bytes(out, at, key);
    next
}

// Puts the line of step k.
fn put_line(out: &mut [u8], at: usize, k: u32, answer: Answer) -> usize
    requires { at + 66 ≤ length out.old }
    ensures { Put out.old at (step_line k answer) out.new result }
{
    let next = put_keyed(out, at, b"step=", k);
    let last = put_body(out, next, answer);
    put_bytes(out, last, b"\n")
}

// Puts the line of one stored word.
fn put_word(out: &mut [u8], at: usize, w: u32) -> usize
    requires { at + 16 ≤ length out.old }
    ensures { Put out.old at (word_line w) out.new result }
{
    let next = put_keyed(out, at, b"word=", w);
    put_bytes(out, next, b"\n")
}

// Puts a line for each word.
fn put_words(out: &mut [u8], at: usize, words: &[u32]) -> usize
    requires { at + 16 * length words.now ≤ length out.old }
    ensures { Put out.old at (word_lines words.now) out.new result }
{
    let mut next = at;
    for w in words {
        next = put_word(out, next, *w);
    }
    next
}

// The words of a buffer that an answer says were stored; all of them where it says more.
fn stored(answer: Answer, buffer: &[u32]) -> &[u32]
    ensures { result.now ≡ stored answer buffer.now }
{
    let count = match answer {
        Answer::Transferred(p) => p.words,
        Answer::Listed(count) => count,
        Answer::Replied(_)
        | Answer::Taken(_)
        | Answer::Done
        | Answer::Looked(_)
        | Answer::Wrote(_)
        | Answer::Refused(_) => 0,
    };
    &buffer[..buffer.len().min(count as usize)]
}

// Puts what step k prints: its line, and a word line for each word that it stored in its buffer. Answers the index after them.
pub fn put_step(out: &mut [u8], at: usize, k: u32, answer: Answer, buffer: &[u32]) -> usize
    requires { (at + 8258 ≤ length out.old) × (length buffer.now ≤ 512) }
    ensures { Put out.old at (step_text k (record { answer = answer; buffer = buffer.now })) out.new result }
{
    let next = put_line(out, at, k, answer);
    put_words(out, next, stored(answer, buffer))
}

// Puts what line k of the crate file prints, where it is refused.
pub fn put_crate_refusal(out: &mut [u8], at: usize, k: u32, refusal: Refusal) -> usize
    requires { at + 36 ≤ length out.old }
    ensures { Put out.old at (crate_text k refusal) out.new result }
{
    let next = put_field(out, at, b"crate=", k);
    let last = put_field(out, next, b" refused=", step::refusal_number(refusal));
    put_bytes(out, last, b"\n")
}
