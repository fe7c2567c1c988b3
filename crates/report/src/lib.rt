// What is printed of two lists of steps that are compared: a line for each run of neighbouring stations that part alike, a line for each refusal number that parts, and
// last the verdict, put into a lent buffer.
#![tactic(auto)]

ghost use Rattle.std.specs.Prelude.{◌≡◌, ◌+◌, ◌*◌, ◌≤◌, length, Some};
ghost use Rattle.text.specs.Text.{field};
ghost use Rattle.text.specs.Paste.{Put};
ghost use Rattle.verdict.specs.Counted.{count};
ghost use Rattle.verdict.specs.Watches.{last_watch, Watch};
ghost use Rattle.report.specs.Report.{line_of, PartingAt, PartsAs, alike, run, names_text, numbers_text, line_text, run_text, PutReport};
ghost use Rattle.report.specs.Lines.{NoneParts, Taken, PutRuns, PutRefusals, PutLines};

use lists::STEP_WORDS;
use step::fields::LAST_STATION;
use text::{put_bytes, put_field};
use verdict::LAST_WATCH;

// Where a watch parts: the line of the first list that was due, the line of the second that stands there, and the line where the due one stands instead.
#[derive(Clone, Copy, PartialEq, Eq)]
pub struct Parting {
    pub first: u32,
    pub second: u32,
    pub stands: u32,
}

// The last run so far, which may go on: its first station, where its stations part, if they do, and the place in the buffer for its line.
#[derive(Clone, Copy)]
pub struct LastRun {
    pub low: u32,
    pub parting: Option<Parting>,
    pub at: usize,
}

// The line at a place of a list of so many steps; 0 past its end.
fn line_number(place: usize, many: usize) -> u32
    requires { many ≤ 99999 }
    ensures { result ≡ line_of place many }
{
    if place < many { place as u32 + 1 } else { 0 }
}

// The parting at place i of the first list and place j of the second.
fn parting_at(first: &[u32], second: &[u32], i: usize, j: usize) -> Parting
    requires { (count first.now ≤ 99999) × (count second.now ≤ 99999) }
    ensures { PartingAt first.now second.now i j (Some result) }
{
    let m = first.len() / STEP_WORDS;
    let n = second.len() / STEP_WORDS;
    let s = verdict::find(first, i, second, j);
    Parting {
        first: line_number(i, m),
        second: line_number(j, n),
        stands: line_number(s, n),
    }
}

// Where watch k parts.
fn parting_of(first: &[u32], second: &[u32], k: u32) -> Option<Parting>
    requires { (count first.now ≤ 99999) × (count second.now ≤ 99999) }
    ensures { PartsAs first.now second.now k result }
{
    let parted = verdict::watch(first, second, k)?;
    Some(parting_at(first, second, parted.first, parted.second))
}

// Puts the names of the stations from low to high.
fn put_names(out: &mut [u8], at: usize, low: u32, high: u32) -> usize
    requires { at + 26 ≤ length out.old }
    ensures { Put out.old at (names_text low high) out.new result }
{
    let next = put_field(out, at, b"n=", low);
    if low == high {
        return next;
    }
    put_field(out, next, b" to=", high)
}

// Puts the three lines of a parting.
fn put_numbers(out: &mut [u8], at: usize, parting: Parting) -> usize
    requires { at + 54 ≤ length out.old }
    ensures { Put out.old at (numbers_text parting.first parting.second parting.stands) out.new result }
{
    let there = put_field(out, at, b" first=", parting.first);
    let instead = put_field(out, there, b" second=", parting.second);
    let end = put_field(out, instead, b" stands=", parting.stands);
    put_bytes(out, end, b"\n")
}

// Puts the line of the stations from low to high, which part as x.
fn put_run(out: &mut [u8], at: usize, low: u32, high: u32, x: Option<Parting>) -> usize
    requires { at + 80 ≤ length out.old }
    ensures { Put out.old at (run_text (run low high x)) out.new result }
{
    match x {
        None => at,
        Some(parting) => {
            let next = put_names(out, at, low, high);
            put_numbers(out, next, parting)
        }
    }
}

// Puts the line of refusal number q, which parts as x.
fn put_refusal(out: &mut [u8], at: usize, q: u32, x: Option<Parting>) -> usize
    requires { at + 80 ≤ length out.old }
    ensures { Put out.old at (line_text (field "refused=" q) x) out.new result }
{
    match x {
        None => at,
        Some(parting) => {
            let next = put_field(out, at, b"refused=", q);
            put_numbers(out, next, parting)
        }
    }
}

// Station k, which parts as x, goes into the last run; or that run's line is put, and the station begins the next.
fn take_station(out: &mut [u8], last: LastRun, k: u32, x: Option<Parting>) -> LastRun
    requires { (last.at + 80 ≤ length out.old) × (1 ≤ k) }
    ensures { Taken (alike last.parting x) last out.old k x out.new result }
{
    if last.parting == x {
        return last;
    }
    let at = put_run(out, last.at, last.low, k - 1, last.parting);
    LastRun {
        low: k,
        parting: x,
        at,
    }
}

// Puts the lines of the stations; those before station `from` part nowhere.
fn put_runs(first: &[u32], second: &[u32], from: u32, out: &mut [u8]) -> usize
    requires fit_lists { (count first.now ≤ 99999) × (count second.now ≤ 99999) × (4096 ≤ length out.old) }
    requires none_before { (1 ≤ from) × (from ≤ 23) × NoneParts first.now second.now 1 from }
    ensures { PutRuns first.now second.now out.old out.new result }
{
    let mut last = LastRun {
        low: 1,
        parting: None,
        at: 0,
    };
    for k in from..=LAST_STATION {
        last = take_station(out, last, k, parting_of(first, second, k));
    }
    put_run(out, last.at, last.low, LAST_STATION, last.parting)
}

// Puts the lines of the refusal numbers; those before watch `from` part nowhere.
fn put_refusals(first: &[u32], second: &[u32], from: u32, out: &mut [u8], at: usize) -> usize
    requires fit_lists { (count first.now ≤ 99999) × (count second.now ≤ 99999) × (at ≤ 80 * 24) × (4096 ≤ length out.old) }
    requires none_before { (24 ≤ from) × (from ≤ last_watch) × NoneParts first.now second.now 24 from }
    ensures { PutRefusals first.now second.now (last_watch + 1) out.old at out.new result }
{
    let mut next = at;
    for k in from..=LAST_WATCH {
        next = put_refusal(out, next, k - LAST_STATION, parting_of(first, second, k));
    }
    next
}

// Puts the lines of all watches; those before watch `from` part nowhere.
fn put_lines(first: &[u32], second: &[u32], from: u32, out: &mut [u8]) -> usize
    requires fit_lists { (count first.now ≤ 99999) × (count second.now ≤ 99999) × (4096 ≤ length out.old) }
    requires watch { Watch from × NoneParts first.now second.now 1 from }
    ensures { PutLines first.now second.now out.old out.new result }
{
    if from > LAST_STATION {
        return put_refusals(first, second, from, out, 0);
    }
    let at = put_runs(first, second, from, out);
    put_refusals(first, second, LAST_STATION + 1, out, at)
}

// Puts the whole report.
pub fn put_report(first: &[u32], second: &[u32], out: &mut [u8]) -> usize
    requires { (count first.now ≤ 99999) × (count second.now ≤ 99999) × (4096 ≤ length out.old) }
    ensures { PutReport first.now second.now out.old out.new result }
{
    match verdict::compare(first, second) {
        None => put_bytes(out, 0, b"regrouped=1\n"),
        Some(parted) => {
            let at = put_lines(first, second, parted.watch, out);
            put_bytes(out, at, b"regrouped=0\n")
        }
    }
}
