// Opens, reads and writes: hands the bytes of two files to `reader`, and what it printed to standard output. What cannot be had is said on standard error,
// a line each. `rt` prints to standard output and opens files, `err` prints to standard error.
#![tactic(auto)]

mod arguments;
mod reason;
mod steps;

ghost use Rattle.std.specs.Prelude.{◌≡◌, [], ◌≤◌, length, take, IfSome, IfOk, MatchResult};
ghost use Rattle.dataway.specs.Crate.{empty_crate};
ghost use Rattle.reader.specs.Reading.{state_of, Held, Ready, Took};
ghost use Rattle.shell.specs.Handed.{Reached, Closed, Handed};

pub use arguments::{Files, argument_count, files_named};
use lines::{LINES, has_past};
use reader::{Phase, Reader};
use reason::say_reason;
use sheet::STEP_ROOM;
use std::io::{ErrorKind, Read};
use std::{fs, io, str};
pub use steps::take_list;

// What comes of a file that cannot be read.
const UNREAD: &[u8] = b"; what was not read counts as missing";

// Says something of a file.
fn say(err: &impl Print, path: &[u8], what: &[u8]) {
    let _ = err.write_all(path);
    let _ = err.write_all(what);
}

// Says that a file cannot be read, what comes of that, and why.
fn say_unread(err: &impl Print, path: &[u8], so: &[u8], why: &io::Error) {
    say(err, b"cannot read ", path);
    say_reason(err, so, why);
}

// Opens the file at path, which has to be UTF-8.
fn open_path<R: fs::Files>(rt: &R, path: &[u8]) -> io::Result<R::File> {
    match str::from_utf8(path) {
        Ok(name) => fs::open(rt, name),
        Err(_) => Err(io::Error::new(ErrorKind::InvalidFilename, "its name is not UTF-8")),
    }
}

// Opens the file at path. Where it cannot, says that it is missing, or why it cannot be read, and what comes of that.
fn open<R: fs::Files>(
    rt: &R,
    err: &impl Print,
    path: &[u8],
    missing: &[u8],
    unread: &[u8],
) -> Option<R::File> {
    match open_path(rt, path) {
        Ok(file) => Some(file),
        Err(why) => {
            if why.kind() == ErrorKind::NotFound {
                say(err, path, missing);
            } else {
                say_unread(err, path, unread, &why);
            }
            None
        }
    }
}

// Reads once: so many bytes, and none at the end of a file. Where it cannot, says so, and what comes of that.
fn read_some(
    file: &mut impl Read,
    err: &impl Print,
    path: &[u8],
    text: &mut [u8],
    unread: &[u8],
) -> Option<usize>
    ensures { IfSome result (λ n. n ≤ length text.new) }
{
    match file.read(text) {
        Ok(count) => Some(count),
        Err(why) => {
            say_unread(err, path, unread, &why);
            None
        }
    }
}

// Not all of the first `at` bytes of the output buffer could be written, and that was said.
#[derive(Clone, Copy)]
pub struct Unwritten {
    pub at: usize,
}

// Writes the first `at` bytes out, and answers how many they are. Where it cannot, says so.
pub fn write_out(
    rt: &impl Print,
    err: &impl Print,
    out: &[u8],
    at: usize,
    what: &[u8],
) -> Result<usize, Unwritten>
    requires { at ≤ length out.now }
    ensures { MatchResult result (λ n. n ≡ at) (λ u. u.at ≡ at) }
{
    match rt.write_all(&out[..at]) {
        Ok(()) => Ok(at),
        Err(why) => {
            say(err, b"cannot write ", what);
            say_reason(err, b"; what was written is not all of it", &why);
            Err(Unwritten { at })
        }
    }
}

// Writes the output buffer out where it may lack room for one more line.
fn make_room(
    rt: &impl Print,
    err: &impl Print,
    s: Reader,
    line: &[u8],
    memory: &[u32],
    out: &[u8],
) -> Result<Reader, Unwritten>
    requires held { Held s line.now memory.now out.now }
    requires room { 8258 ≤ length out.now }
    ensures ready { IfOk result (λ r. Ready r line.now memory.now out.now) }
    ensures took { IfOk result (λ r. Took (state_of s line.now memory.now out.now) [] (state_of r line.now memory.now out.now)) }
{
    if s.at <= out.len() - STEP_ROOM {
        return Ok(s);
    }
    write_out(rt, err, out, s.at, b"the sheet")?;
    Ok(Reader { at: 0, ..s })
}

// Takes all of text, unless the output fails. What was read may have lines past the last that is read all the same, and that is said.
fn take_text(
    rt: &impl Print,
    err: &impl Print,
    path: &[u8],
    text: &[u8],
    s: Reader,
    line: &mut [u8],
    memory: &mut [u32],
    out: &mut [u8],
) -> Result<Reader, Unwritten>
    requires held { Held s line.old memory.old out.old }
    requires room { 8258 ≤ length out.old }
    ensures stays_held { IfOk result (λ r. Held r line.new memory.new out.new) }
    ensures took { IfOk result (λ r. Took (state_of s line.old memory.old out.old) text.now (state_of r line.new memory.new out.new)) }
{
    let mut r = s;
    let mut from = 0;
    // A `while`: a turn goes on behind what there was room for.
    while from < text.len() {
        let room = match make_room(rt, err, r, line, memory, out) {
            Ok(room) => room,
            Err(unwritten) => {
                let _ = goes_on(err, path, text, s, r);
                return Err(unwritten);
            }
        };
        let p = reader::chunk_lines(&text[from..], room, line, memory, out);
        from += p.next;
        r = p.reader;
    }
    Ok(r)
}

// The file may have bytes that count after text, which led from one state to the other. Lines past the last that is read do not, and that is said.
fn goes_on(err: &impl Print, path: &[u8], text: &[u8], before: Reader, after: Reader) -> bool {
    if after.phase == Phase::Ended {
        return false;
    }
    if after.number < LINES {
        return true;
    }
    let past = has_past(text, before.number as usize);
    if past {
        say(err, path, b" has lines past 99,999, which are not read\n");
    }
    !past
}

// Reads and takes an open file to its end, or as far as its bytes count. A proved loop has to end, and nothing says that a file does, so the loop has a
// number of turns that no run uses up.
// `take_parts` has a loop of its own: a failed read is no end of the file there, and one loop over both readers would be longer than the two.
fn take_open(
    rt: &impl Print,
    err: &impl Print,
    file: &mut impl Read,
    path: &[u8],
    text: &mut [u8],
    s: Reader,
    line: &mut [u8],
    memory: &mut [u32],
    out: &mut [u8],
) -> Result<Reader, Unwritten>
    requires held { Held s line.old memory.old out.old }
    requires room { 8258 ≤ length out.old }
    ensures stays_held { IfOk result (λ r. Held r line.new memory.new out.new) }
    ensures reached { IfOk result (λ r. Reached (state_of s line.old memory.old out.old) (state_of r line.new memory.new out.new)) }
{
    let mut r = s;
    for _ in 0..u64::MAX {
        let before = r;
        let Some(n @ 1..) = read_some(file, err, path, text, UNREAD) else {
            return Ok(r);
        };
        r = take_text(rt, err, path, &text[..n], before, line, memory, out)?;
        if !goes_on(err, path, &text[..n], before, r) {
            return Ok(r);
        }
    }
    Err(Unwritten { at: r.at })
}

// The end of a file.
fn end_file(
    rt: &impl Print,
    err: &impl Print,
    s: Reader,
    line: &[u8],
    memory: &mut [u32],
    out: &mut [u8],
) -> Result<Reader, Unwritten>
    requires held { Held s line.now memory.old out.old }
    requires room { 8258 ≤ length out.old }
    ensures stays_held { IfOk result (λ r. Held r line.now memory.new out.new) }
    ensures closed { IfOk result (λ r. Closed (state_of s line.now memory.old out.old) (state_of r line.now memory.new out.new)) }
{
    let room = make_room(rt, err, s, line, memory, out)?;
    Ok(reader::finish(room, line, memory, out))
}

// Takes the file at path. One that is missing is empty.
fn take_file<R: fs::Files + Print>(
    rt: &R,
    err: &impl Print,
    path: &[u8],
    text: &mut [u8],
    s: Reader,
    line: &mut [u8],
    memory: &mut [u32],
    out: &mut [u8],
) -> Result<Reader, Unwritten>
    requires held { Held s line.old memory.old out.old }
    requires room { 8258 ≤ length out.old }
    ensures stays_held { IfOk result (λ r. Held r line.new memory.new out.new) }
    ensures closed { IfOk result (λ r. Closed (state_of s line.old memory.old out.old) (state_of r line.new memory.new out.new)) }
{
    let missing = b" is missing; it counts as empty\n";
    let Some(mut file) = open(rt, err, path, missing, UNREAD) else {
        return end_file(rt, err, s, line, memory, out);
    };
    let taken = take_open(rt, err, &mut file, path, text, s, line, memory, out);
    drop(file);
    end_file(rt, err, taken?, line, memory, out)
}

// Writes out what is left in the output buffer.
fn flush(rt: &impl Print, err: &impl Print, s: Reader, out: &[u8]) -> Result<Reader, Unwritten>
    requires { s.at ≤ length out.now }
    ensures { IfOk result (λ r. r ≡ s) }
{
    write_out(rt, err, out, s.at, b"the sheet")?;
    Ok(s)
}

// Rehearses the run of one file on the crate of another, in lent buffers: text for what is read, line for a line's first bytes, memory for the crate, which
// is empty at first, and out for what is printed. What was written last is still in `out`, and it is the end of a sheet.
pub fn rehearse<R: fs::Files + Print>(
    rt: &R,
    err: &impl Print,
    crate_path: &[u8],
    run_path: &[u8],
    text: &mut [u8],
    line: &mut [u8],
    memory: &mut [u32],
    out: &mut [u8],
) -> Result<Reader, Unwritten>
    requires { (length line.old ≡ 81) × (8258 ≤ length out.old) × (memory.old ≡ empty_crate) }
    ensures { IfOk result (λ r. Handed (take r.at out.new)) }
{
    let start = Reader {
        fill: 0,
        number: 0,
        phase: Phase::CrateFile,
        previous: 0,
        at: 0,
    };
    let built = take_file(rt, err, crate_path, text, start, line, memory, out)?;
    if built.phase == Phase::Ended {
        return flush(rt, err, built, out);
    }
    let second = Reader {
        phase: Phase::RunFile,
        at: built.at,
        ..start
    };
    let ran = take_file(rt, err, run_path, text, second, line, memory, out)?;
    flush(rt, err, ran, out)
}
