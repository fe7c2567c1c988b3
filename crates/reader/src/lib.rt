// Reads the crate file and the run file, in parts of any length, and prints into a lent buffer.
#![tactic(auto)]

ghost use Rattle.std.specs.Prelude.{◌≡◌, List, ℕ, ◌+◌, ◌≤◌, ◌<◌, length, take, Err, ltb, ◌&&◌};
ghost use Rattle.reader.specs.Reading.{rehearsing, next, module_line, run_line, state_of, after_module, after_step, uses_buffer, is_open, Held, Ready};
ghost use Rattle.lines.specs.Lines.{NoLf, NextLf};
ghost use Rattle.lines.specs.Cutting.{ended, step, feed, closed};
ghost use Rattle.dataway.specs.Crate.{FitCrate};
ghost use Rattle.controller.specs.Steps.{order, done_of};

use controller::placing::place;
use lines::{LINE_BYTES, LINES, find_lf};
use sheet::{STEP_ROOM, put_crate_refusal, put_step};
use step::{Refusal, Step};

// What is read: the crate file, then the run file, and nothing once the program has ended.
#[derive(Clone, Copy, PartialEq, Eq)]
pub enum Phase {
    CrateFile,
    RunFile,
    Ended,
}

// Where the reading stands.
#[derive(Clone, Copy)]
pub struct Reader {
    // Bytes of the present line in the line buffer.
    pub fill: usize,
    // Lines of the file that were read.
    pub number: u32,
    pub phase: Phase,
    // Station of the crate line before, 0 where there was none.
    pub previous: u32,
    // Bytes in the output buffer.
    pub at: usize,
}

// A crate line is refused: prints its refusal and ends the program.
fn refuse(s: Reader, q: Refusal, out: &mut [u8]) -> Reader
    requires { (s.number < 99999) × (s.at + 8258 ≤ length out.old) }
    ensures state { (l m : List ℕ) (n : ℕ) → state_of result l m out.new ≡ next (after_module (Err q) n m) (state_of s l m out.old) }
    ensures counts { (result.fill ≡ 0) × (result.at ≤ length out.new) }
{
    let number = s.number + 1;
    let at = put_crate_refusal(out, s.at, number, q);
    Reader {
        fill: 0,
        number,
        phase: Phase::Ended,
        at,
        ..s
    }
}

// A crate line ends: puts its module into the crate.
fn end_module_line(s: Reader, line: &[u8], memory: &mut [u32], out: &mut [u8]) -> Reader
    requires ready { Ready s line.now memory.old out.old }
    requires number_bound { s.number < 99999 }
    ensures out_after { state_of result line.now memory.new out.new ≡ next (module_line (take s.fill line.now)) (state_of s line.now memory.old out.old) }
    ensures held { Held result line.now memory.new out.new }
{
    match runfile::read_module(&line[..s.fill]) {
        Err(q) => refuse(s, q, out),
        Ok(held) => match place(memory, s.previous, held) {
            Err(q) => refuse(s, q, out),
            Ok(()) => Reader {
                fill: 0,
                number: s.number + 1,
                phase: Phase::CrateFile,
                previous: held.n,
                ..s
            },
        },
    }
}

// The reading looks at the buffer that it is lent: a block transfer does, but for a put of one word, and a listing. Every kind of step is named, so that a new
// one is decided here.
fn uses_buffer(reading: Result<Step, Refusal>) -> bool
    ensures { result ≡ uses_buffer reading }
{
    match reading {
        Err(_)
        | Ok(
            Step::Command { .. }
            | Step::Front { .. }
            | Step::Z
            | Step::C
            | Step::Inhibit { .. }
            | Step::LookAtMe
            | Step::Put { .. },
        ) => false,
        Ok(
            Step::Scan { .. }
            | Step::Repeat { .. }
            | Step::Stop { .. }
            | Step::PutLent { .. }
            | Step::Processor(_)
            | Step::Within { .. },
        ) => true,
    }
}

// Does the step of a run line with the lent buffer, and prints the answer.
fn do_step(
    s: Reader,
    reading: Result<Step, Refusal>,
    memory: &mut [u32],
    buffer: &mut [u32],
    out: &mut [u8],
) -> Reader
    requires bounds { (s.number < 99999) × (s.at + 8258 ≤ length out.old) × (length buffer.old ≤ 512) }
    requires fit_crate { FitCrate memory.old }
    ensures state { (l : List ℕ) → state_of result l memory.new out.new ≡ next (after_step (done_of memory.old (order reading buffer.old))) (state_of s l memory.old out.old) }
    ensures counts { (result.fill ≡ 0) × (result.at ≤ length out.new) }
    ensures fit { FitCrate memory.new }
{
    let answer = controller::perform(memory, reading, buffer);
    let number = s.number + 1;
    let at = put_step(out, s.at, number, answer, buffer);
    Reader {
        fill: 0,
        number,
        phase: Phase::RunFile,
        at,
        ..s
    }
}

// A run line ends: does its step. Only a step that looks at its buffer is lent one, 512 words of 0.
fn end_run_line(s: Reader, line: &[u8], memory: &mut [u32], out: &mut [u8]) -> Reader
    requires ready { Ready s line.now memory.old out.old }
    requires number_bound { s.number < 99999 }
    ensures out_after { state_of result line.now memory.new out.new ≡ next (run_line (take s.fill line.now)) (state_of s line.now memory.old out.old) }
    ensures held { Held result line.now memory.new out.new }
{
    let reading = runfile::read_line(&line[..s.fill]);
    if uses_buffer(reading) {
        let mut buffer = [0u32; 512];
        return do_step(s, reading, memory, &mut buffer, out);
    }
    do_step(s, reading, memory, &mut [], out)
}

// A line ends: answers it, prints the answer and starts the next one.
fn end_line(s: Reader, line: &[u8], memory: &mut [u32], out: &mut [u8]) -> Reader
    requires ready { Ready s line.now memory.old out.old }
    requires number_bound { s.number < 99999 }
    ensures out_after { state_of result line.now memory.new out.new ≡ ended rehearsing (state_of s line.now memory.old out.old) }
    ensures held { Held result line.now memory.new out.new }
{
    if s.phase == Phase::RunFile {
        end_run_line(s, line, memory, out)
    } else {
        end_module_line(s, line, memory, out)
    }
}

// Whether lines are still read: none is after the last that is read, or once the program has ended.
fn takes_lines(s: Reader) -> bool
    ensures { result ≡ ltb s.number 99999 && is_open s.phase }
{
    s.number < LINES && s.phase != Phase::Ended
}

// Takes the LF after the bytes of a line.
fn take_lf(s: Reader, line: &[u8], memory: &mut [u32], out: &mut [u8]) -> Reader
    requires { Ready s line.now memory.old out.old }
    ensures out_after { state_of result line.now memory.new out.new ≡ step rehearsing (state_of s line.now memory.old out.old) 10 }
    ensures held { Held result line.now memory.new out.new }
{
    if takes_lines(s) {
        end_line(s, line, memory, out)
    } else {
        s
    }
}

// Takes bytes of a line, none of which is LF.
fn take_span(s: Reader, span: &[u8], line: &mut [u8]) -> Reader
    requires bounds { (s.fill ≤ 81) × (length line.old ≡ 81) }
    requires no_lf { NoLf span.now }
    ensures state { (m o : List ℕ) → state_of result line.new m o ≡ feed rehearsing (state_of s line.old m o) span.now }
    ensures counts { (result.fill ≤ 81) × (result.at ≡ s.at) }
{
    if !takes_lines(s) {
        return s;
    }
    let fill = lines::keep(line, s.fill, span);
    Reader { fill, ..s }
}

// Takes a line of n bytes at the front of text, none of which was taken before, and its LF. The line is read where it stands: the first bytes of text serve
// as the line buffer.
fn take_in_place(s: Reader, text: &[u8], n: usize, memory: &mut [u32], out: &mut [u8]) -> Reader
    requires bounds { (s.fill ≡ 0) × (81 ≤ length text.now) × (n ≤ length text.now) × (s.at + 8258 ≤ length out.old) }
    requires fit_crate { FitCrate memory.old }
    requires no_lf { NoLf (take n text.now) }
    ensures state { (l : List ℕ) → state_of result l memory.new out.new ≡ step rehearsing (feed rehearsing (state_of s l memory.old out.old) (take n text.now)) 10 }
    ensures counts { (result.fill ≡ 0) × (result.at ≤ length out.new) }
    ensures fit { FitCrate memory.new }
{
    if !takes_lines(s) {
        return s;
    }
    let whole = Reader {
        fill: n.min(LINE_BYTES),
        ..s
    };
    end_line(whole, &text[..LINE_BYTES], memory, out)
}

// Takes the first n bytes of text and the LF after them. A line that begins with them is read where it stands, unless text has fewer bytes than a line
// buffer.
fn take_line(
    s: Reader,
    text: &[u8],
    n: usize,
    line: &mut [u8],
    memory: &mut [u32],
    out: &mut [u8],
) -> Reader
    requires ready { Ready s line.old memory.old out.old }
    requires next_lf { NextLf text.now 0 n }
    requires n_bound { n < length text.now }
    ensures out_after { state_of result line.new memory.new out.new ≡ feed rehearsing (state_of s line.old memory.old out.old) (take (n + 1) text.now) }
    ensures held { Held result line.new memory.new out.new }
{
    if s.fill == 0 && text.len() >= LINE_BYTES {
        return take_in_place(s, text, n, memory, out);
    }
    let r = take_span(s, &text[..n], line);
    take_lf(r, line, memory, out)
}

// How far a part of a file was taken.
#[derive(Clone, Copy)]
pub struct Progress {
    pub next: usize,
    pub reader: Reader,
}

// Takes bytes of a file until there are no more, or until the output buffer may lack room for a line.
pub fn chunk_lines(
    text: &[u8],
    s: Reader,
    line: &mut [u8],
    memory: &mut [u32],
    out: &mut [u8],
) -> Progress
    requires { Held s line.old memory.old out.old }
    ensures out_after { state_of result.reader line.new memory.new out.new ≡ feed rehearsing (state_of s line.old memory.old out.old) (take result.next text.now) }
    ensures held { Held result.reader line.new memory.new out.new }
    ensures within { result.next ≤ length text.now }
    ensures takes_some { s.at + 8258 ≤ length out.old → 0 < length text.now → 0 < result.next }
{
    let mut r = s;
    let mut i = 0;
    // A `while`: a turn goes on behind the line that it took.
    while i < text.len() {
        if out.len() < STEP_ROOM || r.at > out.len() - STEP_ROOM {
            break;
        }
        let e = find_lf(text, i);
        if e == text.len() {
            r = take_span(r, &text[i..e], line);
            return Progress { next: e, reader: r };
        }
        r = take_line(r, &text[i..], e - i, line, memory, out);
        i = e + 1;
    }
    Progress { next: i, reader: r }
}

// The end of a file: ends a last line that has no LF.
pub fn finish(s: Reader, line: &[u8], memory: &mut [u32], out: &mut [u8]) -> Reader
    requires { Ready s line.now memory.old out.old }
    ensures out_after { state_of result line.now memory.new out.new ≡ closed rehearsing (state_of s line.now memory.old out.old) }
    ensures held { Held result line.now memory.new out.new }
{
    if takes_lines(s) && s.fill > 0 {
        end_line(s, line, memory, out)
    } else {
        s
    }
}
