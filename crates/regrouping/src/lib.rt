// Two run files, read, compared and reported on standard output. Where one of them is not read whole, or has lines and all of them are refused, there is no
// verdict.
#![tactic(auto)]

ghost use Rattle.std.specs.Prelude.{◌≡◌, ◌≤◌, false, true, length, take, MatchOption, MatchResult};
ghost use Rattle.text.specs.Paste.{Put};
ghost use Rattle.verdict.specs.Counted.{count, refused_in};
ghost use Rattle.regrouping.specs.Files.{heard, PutAnswer, Answered, refused_text};

use lists::STEP_WORDS;
use shell::Unwritten;
use std::rt::Files;
use text::{put_bytes, put_field};

// Puts what is said of a file's refused lines.
fn put_refused(out: &mut [u8], many: u32, all: u32) -> usize
    requires { 128 ≤ length out.old }
    ensures { Put out.old 0 (refused_text many all) out.new result }
{
    let of = put_field(out, 0, b": ", many);
    let at = put_field(out, of, b" of ", all);
    if many == all {
        return put_bytes(out, at, b" lines are refused; no verdict\n");
    }
    put_bytes(
        out,
        at,
        b" lines are refused; refused lines are compared by their number\n",
    )
}

// How many lines of a file are refused, of how many.
#[derive(Clone, Copy)]
struct Lines {
    refused: u32,
    all: u32,
}

// Says how many lines of a file are refused, if any are.
fn say_refused(err: &impl Print, path: &[u8], lines: Lines) {
    if lines.refused == 0 {
        return;
    }
    let mut said = [0u8; 128];
    let end = put_refused(&mut said, lines.refused, lines.all);
    let _ = err.write_all(path);
    let _ = err.write_all(&said[..end]);
}

// Counts the refused lines of a file. Where it has lines and all of them are refused, it is not heard, and that is said.
fn hear(err: &impl Print, path: &[u8], words: &[u32]) -> Option<Lines>
    requires { count words.now ≤ 99999 }
    ensures { MatchOption result (heard words.now ≡ false) (λ l. (l.refused ≡ refused_in words.now) × (l.all ≡ count words.now) × (heard words.now ≡ true)) }
{
    let refused = verdict::refused(words) as u32;
    let all = (words.len() / STEP_WORDS) as u32;
    let lines = Lines { refused, all };
    if all == 0 || refused < all {
        return Some(lines);
    }
    say_refused(err, path, lines);
    None
}

// Prints the report on two lists, if both are heard, and says how many lines are refused.
fn tell(
    rt: &impl Print,
    err: &impl Print,
    first_path: &[u8],
    first: &[u32],
    second_path: &[u8],
    second: &[u32],
    out: &mut [u8],
) -> Result<usize, Unwritten>
    requires { (count first.now ≤ 99999) × (count second.now ≤ 99999) × (4096 ≤ length out.old) }
    ensures { MatchResult result (PutAnswer first.now second.now out.old out.new) (λ u. PutAnswer first.now second.now out.old out.new u.at) }
{
    let old = hear(err, first_path, first);
    let new = hear(err, second_path, second);
    let (Some(old), Some(new)) = (old, new) else {
        return Ok(0);
    };
    say_refused(err, first_path, old);
    say_refused(err, second_path, new);
    let at = report::put_report(first, second, out);
    shell::write_out(rt, err, out, at, b"the report")
}

// Compares the run file at one path with that at another, and prints the report, in lent buffers: text for what is read, line for a line's first bytes, first and
// second for the steps of the two files, out for the report.
pub fn compare_files<R: Files + Print>(
    rt: &R,
    err: &impl Print,
    first_path: &[u8],
    second_path: &[u8],
    text: &mut [u8],
    line: &mut [u8],
    first: &mut [u32],
    second: &mut [u32],
    out: &mut [u8],
) -> Result<usize, Unwritten>
    requires { (length line.old ≡ 81) × (length first.old ≡ 599994) × (length second.old ≡ 599994) × (4096 ≤ length out.old) }
    ensures { MatchResult result (λ n. Answered (take n out.new)) (λ u. Answered (take u.at out.new)) }
{
    let old = shell::take_list(rt, err, first_path, text, line, first);
    let new = shell::take_list(rt, err, second_path, text, line, second);
    let Some(old) = old else {
        return Ok(0);
    };
    let Some(new) = new else {
        return Ok(0);
    };
    let p = STEP_WORDS * old;
    let q = STEP_WORDS * new;
    tell(
        rt,
        err,
        first_path,
        &first[..p],
        second_path,
        &second[..q],
        out,
    )
}
