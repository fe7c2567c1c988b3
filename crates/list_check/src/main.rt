// Calls the open calls with what no file can lend: crates that are not fit, too few words, buffers whose words show what is left alone, buffer memories with
// any head; and the reader with more lines than it reads. Standard input says what is lent and called, line by line; cases.md says what each case shows and why
// its numbers are these.
#![tactic(auto)]

ghost use Rattle.std.specs.Prelude.{◌≡◌, ◌≤◌, length};
ghost use Rattle.reader.specs.Reading.{Held};

use controller::Answer;
use lists::ANSWER_WORDS;
use reader::{Phase, Reader};
use std::io::Read;
use std::iter::once;
use step::Refusal;

// The stored input fits.
const ROOM: usize = 16384;

const CRATE_WORDS: usize = 768;

// One word more than a crate has.
const MEMORY_WORDS: usize = 769;

// The memory, and behind it the one that is kept.
const BOTH_WORDS: usize = 1538;

// Lists have at most twenty steps, of six words each.
const LIST_WORDS: usize = 120;

// The list, and behind it the four steps of a second.
const BOTH_STEPS: usize = 24;

const BOTH_LISTS: usize = 144;

const ANSWERS_WORDS: usize = 80;

// The words of a step's buffer in a list.
const STEP_BUFFER: usize = 512;

const BUFFERS_WORDS: usize = 10240;

// The words of a single transfer's buffer.
const ONE_BUFFER: usize = 16;

// More than any put offers.
const LONG_BUFFER: usize = 600;

// A long run file begins with so many parts of so many empty lines, 99,996 in all.
const PARTS: usize = 52;

const PART_LINES: usize = 1923;

// What answers and buffers hold before a call, so that it shows which words the call stores.
const MARK: u32 = 77;

// ---- words
// The first n words, or all where there are fewer.
fn lent(words: &[u32], n: u32) -> &[u32] {
    &words[..words.len().min(n as usize)]
}

fn lent_mut(words: &mut [u32], n: u32) -> &mut [u32] {
    let end = words.len().min(n as usize);
    &mut words[..end]
}

// A copy of the crate.
fn crate_of(memory: &[u32; BOTH_WORDS]) -> [u32; CRATE_WORDS] {
    let mut words = [0; CRATE_WORDS];
    words.copy_from_slice(&memory[..CRATE_WORDS]);
    words
}

// How many words are not what they were before.
fn changes(before: &[u32], words: &[u32]) -> usize {
    before.iter().zip(words).filter(|(x, y)| **x != **y).count()
}

fn number(verdict: Result<(), Refusal>) -> u32 {
    verdict.err().map_or(0, step::refusal_number)
}

// ---- what is printed
fn show(rt: &impl Print, key: &[u8], n: u32) {
    let _ = rt.write_all(key);
    let _ = rt.print(n as u64);
}

fn end_line(rt: &impl Print) {
    let _ = rt.write_all(b"\n");
}

fn show_changes(rt: &impl Print, key: &[u8], before: &[u32], words: &[u32]) {
    let _ = rt.write_all(key);
    let _ = rt.print(changes(before, words) as u64);
}

fn show_words(rt: &impl Print, sign: &[u8], words: &[u32]) {
    let _ = rt.write_all(sign);
    for &word in words {
        show(rt, b" ", word);
    }
}

// The first four words of a step's buffer.
fn show_stored(rt: &impl Print, buffer: &[u32]) {
    if let Some(stored) = buffer.get(..4) {
        show_words(rt, b" :", stored);
    }
}

// The four words of the answer to a step, what it stored, where it is of a kind that stores, and of a listing the last word that it listed.
fn show_answer(rt: &impl Print, answer: &[u32], buffer: &[u32]) {
    show_words(rt, b" |", answer);
    match *answer {
        [5, ..] => {
            show_stored(rt, buffer);
        }
        [7, count, ..] => {
            show_stored(rt, buffer);
            if let Some(&word) = lent(buffer, count).last() {
                show_words(rt, b" ..", &[word]);
            }
        }
        _ => {}
    }
}

fn show_answers(rt: &impl Print, answers: &[u32], buffers: &[u32], count: usize) {
    let answers = answers.chunks(ANSWER_WORDS);
    let buffers = buffers.chunks(STEP_BUFFER);
    for (answer, buffer) in answers.zip(buffers).take(count) {
        show_answer(rt, answer, buffer);
    }
}

fn show_verdict(rt: &impl Print, case: u32, verdict: Result<(), Refusal>) {
    show(rt, b"case=", case);
    show(rt, b" verdict=", number(verdict));
}

fn show_marks(rt: &impl Print, marks: &[u32], answers: &[u32], buffers: &[u32]) {
    show_changes(rt, b" answers=", marks, answers);
    show_changes(rt, b" buffers=", marks, buffers);
}

// The verdict on one of two lists, and its four answers.
fn show_half(
    rt: &impl Print,
    key: &[u8],
    verdict: Result<(), Refusal>,
    answers: &[u32],
    buffers: &[u32],
) {
    show(rt, key, number(verdict));
    show_answers(rt, answers, buffers, 4);
}

// ---- the calls
// The verdict on a list with words lent, its answers, and how many words it changed.
fn run(
    rt: &impl Print,
    numbers: &[u32; 8],
    memory: &mut [u32; BOTH_WORDS],
    steps: &[u32; BOTH_LISTS],
) {
    let [_, case, low, long, s, a, b, high] = *numbers;
    let count = high as usize * 4294967296 + low as usize;
    let marks = [MARK; BUFFERS_WORDS];
    let before = *memory;
    let mut answers = [MARK; ANSWERS_WORDS];
    let mut buffers = marks;
    let verdict = rehearsal::run_list(
        lent_mut(memory, long),
        count,
        lent(steps, s),
        lent_mut(&mut answers, a),
        lent_mut(&mut buffers, b),
    );
    show_verdict(rt, case, verdict);
    if verdict.is_ok() {
        show_answers(rt, &answers, &buffers, count);
    }
    show_changes(rt, b" memory=", &before, memory);
    show_marks(rt, &marks, &answers, &buffers);
    end_line(rt);
}

// The step of a line by `run_step`, or the line by `run_line`.
fn call(as_step: bool, memory: &mut [u32], line: &[u8], buffer: &mut [u32]) -> Answer {
    match runfile::read_line(line) {
        Ok(step) if as_step => rehearsal::run_step(memory, step, buffer),
        _ => rehearsal::run_line(memory, line, buffer),
    }
}

// The four words of an answer and what follows them.
fn show_one(rt: &impl Print, case: u32, answer: Answer, buffer: &[u32]) {
    let mut words = [0; ANSWER_WORDS];
    lists::write_answer(&mut words, answer);
    show(rt, b"case=", case);
    show_answer(rt, &words, buffer);
}

// The answer of a step or a line with the first n words of a buffer full of y, and how many words it changed.
fn one(
    rt: &impl Print,
    as_step: bool,
    numbers: &[u32; 8],
    memory: &[u32; BOTH_WORDS],
    line: &[u8],
) {
    let [_, case, n, y, ..] = *numbers;
    let mut m = crate_of(memory);
    let full = [y; ONE_BUFFER];
    let mut buffer = full;
    let answer = call(as_step, &mut m, line, lent_mut(&mut buffer, n));
    show_one(rt, case, answer, &buffer);
    show_changes(rt, b" memory=", memory, &m);
    show_changes(rt, b" buffer=", &full, &buffer);
    end_line(rt);
}

// The transfer of a step's words by the trigger processor's call.
fn at_processor(memory: &mut [u32], steps: &[u32; BOTH_LISTS], buffer: &mut [u32]) -> Answer {
    let [kind, n, a, f, p, q, ..] = *steps;
    match kind {
        17 => rehearsal::processor_scan(memory, n, a, f, p, q, buffer),
        18 => rehearsal::processor_repeat(memory, n, a, f, p, q, buffer),
        _ => rehearsal::processor_stop(memory, n, a, f, p, buffer),
    }
}

// The first step of a list by `run_step`, or by the trigger processor's call.
fn first_step(
    as_step: bool,
    memory: &mut [u32],
    steps: &[u32; BOTH_LISTS],
    buffer: &mut [u32],
) -> Answer {
    if !as_step {
        return at_processor(memory, steps, buffer);
    }
    match lists::read_step(&steps[..6]) {
        Ok(step) => rehearsal::run_step(memory, step, buffer),
        Err(refusal) => Answer::Refused(refusal),
    }
}

// The first step of the list with n words lent: its answer, the first four registers of station 6, and how many words it changed.
// Numbers 3 to 6 are the first four words of the buffer.
fn lend(
    rt: &impl Print,
    as_step: bool,
    numbers: &[u32; 8],
    memory: &[u32; BOTH_WORDS],
    steps: &[u32; BOTH_LISTS],
) {
    let [_, case, n, ..] = *numbers;
    let mut m = crate_of(memory);
    let mut full = [MARK; LONG_BUFFER];
    full[..4].copy_from_slice(&numbers[3..7]);
    let mut buffer = full;
    let answer = first_step(as_step, &mut m, steps, lent_mut(&mut buffer, n));
    show_one(rt, case, answer, &buffer);
    show_words(rt, b" ;", &m[208..212]);
    show_changes(rt, b" memory=", memory, &m);
    show_changes(rt, b" buffer=", &full, &buffer);
    end_line(rt);
}

// Two lists of four steps on equal crates, but for I, which is x in the second.
fn two_lists(
    rt: &impl Print,
    case: u32,
    memory: &[u32; BOTH_WORDS],
    x: u32,
    steps: &[u32; BOTH_LISTS],
) {
    let mut m1 = crate_of(memory);
    let mut m2 = m1;
    m2[0] = x;
    let mut a1 = [MARK; 16];
    let mut a2 = [MARK; 16];
    let mut b1 = [MARK; 2048];
    let mut b2 = [MARK; 2048];
    let second = &steps[LIST_WORDS..];
    let pair = rehearsal::run_pair(
        &mut m1, 4, steps, &mut a1, &mut b1, &mut m2, 4, second, &mut a2, &mut b2,
    );
    show(rt, b"case=", case);
    show_half(rt, b" first=", pair.first, &a1, &b1);
    show_half(rt, b" second=", pair.second, &a2, &b2);
    show_changes(rt, b" differ=", &m1, &m2);
    end_line(rt);
}

// Words 0 to 7 of station n and of the two stations to its right, 0 where there is no such station; nothing where n is 0.
fn show_stations(rt: &impl Print, memory: &[u32], n: u32) {
    if 0 < n {
        let at = 32 * n as usize;
        for first in [at, at + 32, at + 64] {
            show_words(rt, b" ;", memory.get(first..first + 8).unwrap_or(&[0; 8]));
        }
    }
}

// The verdict on a crate line after one for station `previous`, what it leaves in station n and to its right, and how many words it changed.
fn module(
    rt: &impl Print,
    case: u32,
    memory: &[u32; BOTH_WORDS],
    previous: u32,
    n: u32,
    line: &[u8],
) {
    let mut m = crate_of(memory);
    let verdict = rehearsal::crate_line(&mut m, previous, line);
    show_verdict(rt, case, verdict);
    show_stations(rt, &m, n);
    show_changes(rt, b" memory=", memory, &m);
    end_line(rt);
}

// ---- a run file of more lines than are read
// The same place in a file, with nothing in the output buffer.
fn anew(s: Reader) -> Reader
    ensures { (result.fill ≡ s.fill) × (result.at ≡ 0) }
{
    Reader { at: 0, ..s }
}

// Takes a part of a run file. What was printed of the parts before it is dropped.
fn take_part(text: &[u8], s: Reader, line: &mut [u8], memory: &mut [u32], out: &mut [u8]) -> Reader
    requires { Held s line.old memory.old out.old }
    ensures { Held result line.new memory.new out.new }
{
    reader::chunk_lines(text, anew(s), line, memory, out).reader
}

// Takes the same part again and again.
fn take_parts(text: &[u8], s: Reader, line: &mut [u8], memory: &mut [u32], out: &mut [u8]) -> Reader
    requires { Held s line.old memory.old out.old }
    ensures { Held result line.new memory.new out.new }
{
    let mut r = s;
    for _ in 0..PARTS {
        r = take_part(text, r, line, memory, out);
    }
    r
}

// What is printed from line 99,997 of a run file on. The first scan is read where it stands, since 81 bytes follow, the others by way of the line buffer.
fn long_run(rt: &impl Print, case: u32) {
    let empty = [b'\n'; PART_LINES];
    let mut line = [0u8; 81];
    let mut memory = [0u32; 768];
    let mut out = [0u8; 65536];
    let start = Reader {
        fill: 0,
        number: 0,
        phase: Phase::RunFile,
        previous: 0,
        at: 0,
    };
    let most = take_parts(&empty, start, &mut line, &mut memory, &mut out);
    let past = take_part(
        b"\n\nop=z\nop=scan n=1 a=0 f=0 to=23 limit=8\nop=scan n=1 a=0 f=0 to=23 limit=8\nop=scan n=1 a=0 f=0 to=23 limit=8\nop=z",
        most,
        &mut line,
        &mut memory,
        &mut out,
    );
    show(rt, b"case=", case);
    end_line(rt);
    let _ = rt.write_all(&out[..past.at]);
    let last = reader::finish(anew(past), &line, &mut memory, &mut out);
    let _ = rt.write_all(&out[..last.at]);
}

// ---- the lines of standard input
// Status, mask, head and fill of the buffer memory, and its sixteen words.
fn view(rt: &impl Print, case: u32, memory: &[u32; BOTH_WORDS]) {
    show(rt, b"case=", case);
    show_words(rt, b" ;", &memory[130..134]);
    show_words(rt, b" ;", &memory[144..160]);
    end_line(rt);
}

fn do_call(
    rt: &impl Print,
    op: u8,
    numbers: &[u32; 8],
    text: &[u8],
    memory: &mut [u32; BOTH_WORDS],
    steps: &[u32; BOTH_LISTS],
) {
    let [_, case, x, n, ..] = *numbers;
    match op {
        b'L' => {
            run(rt, numbers, memory, steps);
        }
        b'V' => {
            view(rt, case, memory);
        }
        b'O' | b'R' => {
            one(rt, op == b'O', numbers, memory, text);
        }
        b'B' | b'T' => {
            lend(rt, op == b'B', numbers, memory, steps);
        }
        b'P' => {
            two_lists(rt, case, memory, x, steps);
        }
        b'C' => {
            module(rt, case, memory, x, n, text);
        }
        b'N' => {
            long_run(rt, case);
        }
        _ => {}
    }
}

fn prepare(
    op: u8,
    numbers: &[u32; 8],
    memory: &mut [u32; BOTH_WORDS],
    steps: &mut [u32; BOTH_LISTS],
) {
    let [_, i, x, ..] = *numbers;
    let i = i as usize;
    match op {
        b'w' => {
            if let Some(word) = memory.get_mut(i) {
                *word = x;
            }
        }
        // six numbers, from number 2 on, as the words of step i
        b's' => {
            if i < BOTH_STEPS {
                steps[6 * i..6 * i + 6].copy_from_slice(&numbers[2..]);
            }
        }
        b'k' => {
            memory.copy_within(..MEMORY_WORDS, MEMORY_WORDS);
        }
        b'g' => {
            memory.copy_within(MEMORY_WORDS.., 0);
        }
        _ => {}
    }
}

// A number with one more digit; as it was where the byte is none, or where it gets too large.
fn push_digit(number: u32, byte: &u8) -> u32 {
    match *byte {
        b'0'..=b'9' => {
            let wide = number as u64 * 10 + (*byte - b'0') as u64;
            u32::try_from(wide).unwrap_or(number)
        }
        _ => number,
    }
}

// The numbers of a line, with spaces between.
fn read_numbers(line: &[u8]) -> [u32; 8] {
    let mut numbers = [0; 8];
    for (number, digits) in numbers.iter_mut().zip(line.split(|b| *b == b' ')) {
        *number = digits.iter().fold(0, push_digit);
    }
    numbers
}

fn do_line(
    rt: &impl Print,
    line: &[u8],
    text: &[u8],
    memory: &mut [u32; BOTH_WORDS],
    steps: &mut [u32; BOTH_LISTS],
) {
    if let Some(&op) = line.first() {
        let numbers = read_numbers(line);
        prepare(op, &numbers, memory, steps);
        do_call(rt, op, &numbers, text, memory, steps);
    }
}

// Each line with the one after it, which is the text of a step, a line or a module where a call takes one.
fn do_lines(
    rt: &impl Print,
    input: &[u8],
    memory: &mut [u32; BOTH_WORDS],
    steps: &mut [u32; BOTH_LISTS],
) {
    let lines = input.split(|b| *b == b'\n');
    let texts = input.split(|b| *b == b'\n').skip(1);
    for (line, text) in lines.zip(texts.chain(once(&b""[..]))) {
        do_line(rt, line, text, memory, steps);
    }
}

// Reads until the buffer is full, the input ends or a read fails, and answers how many bytes it put at the start of the buffer.
fn read_full(input: &mut impl Read, buf: &mut [u8]) -> usize
    ensures { result ≤ length buf.new }
{
    let mut done = 0;
    // A `while`: a read gives as many bytes as there are.
    while done < buf.len() {
        match input.read(&mut buf[done..]) {
            Ok(0) | Err(_) => break,
            Ok(n) => done += n,
        }
    }
    done
}

fn main(rt: HostRuntime) {
    let mut input = [0u8; ROOM];
    let count = read_full(&mut rt.reader(), &mut input);
    let mut memory = [0; BOTH_WORDS];
    let mut steps = [0; BOTH_LISTS];
    do_lines(&rt, &input[..count], &mut memory, &mut steps);
}
