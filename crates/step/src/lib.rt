// A step of a run, the reading of a crate line, and whether they may be done: fields from left to right, then the buffer; and the stations that a step reaches.
// The types come first, then the judging; each row of the table of refusals is a function of `fields`.
#![tactic(auto)]

pub mod fields;

ghost use Rattle.std.specs.Prelude.{◌≡◌};
ghost use Rattle.step.specs.Modules.{module_verdict};
ghost use Rattle.step.specs.Refusals.{refusal_number};
ghost use Rattle.step.specs.Touches.{reach};
ghost use Rattle.step.specs.Verdict.{command_verdict, front_verdict, inhibit_verdict, scan_verdict, repeat_verdict, stop_verdict, put_verdict, put_lent_verdict, within_verdict, step_verdict};
ghost use Rattle.step.specs.Verdict.{short_scan_verdict, short_repeat_verdict, short_stop_verdict, short_verdict};

use fields::{
    LAST_STATION, command_station, command_word, entry_length, fitting, function, inhibit, length,
    number_of_tries, offered, order, range, room_for, room_for_places, station, subaddress,
    transfer, uncovered, window, within, word,
};
use kinds::Module;

// What is sent back, in the order of the numbers, from 1 on.
#[derive(Clone, Copy, PartialEq, Eq)]
pub enum Refusal {
    Garbled = 1,
    NoSuchStation,
    NoSuchSubaddress,
    NoSuchFunction,
    OverwideWord,
    CrossedRange,
    BadLength,
    ShortBuffer,
    UnfitCrate,
    BadModule,
    OutOfOrder,
    CoveredStation,
    LongTransfer,
    CrossedWindow,
}

// The kinds of step, each with the fields of its line in a run file.
#[derive(Clone, Copy, PartialEq, Eq)]
pub enum Step {
    Command {
        n: u32,
        a: u32,
        f: u32,
        w: u32,
    },
    Front {
        n: u32,
        a: u32,
        v: u32,
    },
    Z,
    C,
    Inhibit {
        v: u32,
    },
    LookAtMe,
    Scan {
        n: u32,
        a: u32,
        f: u32,
        to: u32,
        limit: u32,
    },
    Repeat {
        n: u32,
        a: u32,
        f: u32,
        limit: u32,
        tries: u32,
    },
    Stop {
        n: u32,
        a: u32,
        f: u32,
        limit: u32,
    },
    // The run file's put: one word, w, for each register met.
    Put {
        n: u32,
        a: u32,
        to: u32,
        limit: u32,
        w: u32,
    },
    // A put of the first `limit` words of the lent buffer. It has no line in a run file.
    PutLent {
        n: u32,
        a: u32,
        to: u32,
        limit: u32,
    },
    // A transfer at the trigger processor's entry. It has no line in a run file.
    Processor(Short),
    // The registers of stations n to `to` whose values lie from lo to hi.
    Within {
        n: u32,
        to: u32,
        lo: u32,
        hi: u32,
    },
}

// The transfers at the trigger processor's entry, with the fields of the general entry's.
#[derive(Clone, Copy, PartialEq, Eq)]
pub enum Short {
    ShortScan {
        n: u32,
        a: u32,
        f: u32,
        to: u32,
        limit: u32,
    },
    ShortRepeat {
        n: u32,
        a: u32,
        f: u32,
        limit: u32,
        tries: u32,
    },
    ShortStop {
        n: u32,
        a: u32,
        f: u32,
        limit: u32,
    },
}

// Where a transfer is asked for: at the general entry, or at the trigger processor's.
#[derive(Clone, Copy, PartialEq, Eq)]
enum Entry {
    General,
    Processor,
}

// How many refusals there are. Their numbers are 1 to REFUSALS.
pub const REFUSALS: u32 = 14;

// The number that stands for a refusal.
pub fn refusal_number(q: Refusal) -> u32
    ensures { result ≡ refusal_number q }
{
    q as u32
}

// The verdict on a step that is lent a buffer. Of the buffer its length counts, in a transfer, a put of lent words and a listing; of its words the first `limit`, in that put alone.
pub fn judge(step: Step, buffer: &[u32]) -> Result<(), Refusal>
    ensures { result ≡ step_verdict step buffer.now }
{
    let lent = buffer.len();
    match step {
        Step::Command { n, a, f, w } => judge_command(n, a, f, w),
        Step::Front { n, a, v } => judge_front(n, a, v),
        Step::Z | Step::C | Step::LookAtMe => Ok(()),
        Step::Inhibit { v } => judge_inhibit(v),
        Step::Scan { n, a, f, to, limit } => judge_scan(Entry::General, n, a, f, to, limit, lent),
        Step::Repeat {
            n,
            a,
            f,
            limit,
            tries,
        } => judge_repeat(Entry::General, n, a, f, limit, tries, lent),
        Step::Stop { n, a, f, limit } => judge_stop(Entry::General, n, a, f, limit, lent),
        Step::Put { n, a, to, limit, w } => judge_put(n, a, to, limit, w),
        Step::PutLent { n, a, to, limit } => judge_put_lent(n, a, to, limit, buffer),
        Step::Processor(short) => judge_short(short, lent),
        Step::Within { n, to, lo, hi } => judge_within(n, to, lo, hi, lent),
    }
}

// The same of a transfer at the trigger processor's entry.
fn judge_short(short: Short, lent: usize) -> Result<(), Refusal>
    ensures { result ≡ short_verdict short lent }
{
    let at = Entry::Processor;
    match short {
        Short::ShortScan { n, a, f, to, limit } => judge_scan(at, n, a, f, to, limit, lent),
        Short::ShortRepeat {
            n,
            a,
            f,
            limit,
            tries,
        } => judge_repeat(at, n, a, f, limit, tries, lent),
        Short::ShortStop { n, a, f, limit } => judge_stop(at, n, a, f, limit, lent),
    }
}

// The step reaches station k by its fields.
pub fn reaches(step: Step, k: u32) -> bool
    ensures { result ≡ reach step k }
{
    match step {
        Step::Command { n, .. } => LAST_STATION < n || n == k,
        Step::Front { n, .. }
        | Step::Repeat { n, .. }
        | Step::Stop { n, .. }
        | Step::Processor(Short::ShortRepeat { n, .. } | Short::ShortStop { n, .. }) => n == k,
        Step::Z | Step::C | Step::Inhibit { .. } | Step::LookAtMe => true,
        Step::Scan { n, to, .. }
        | Step::Put { n, to, .. }
        | Step::PutLent { n, to, .. }
        | Step::Within { n, to, .. }
        | Step::Processor(Short::ShortScan { n, to, .. }) => within(n, k, to),
    }
}

// The verdict on a crate line after a line for the station `previous`, which is 0 before the first; word 7 of its own station is `covered`.
#[tactic(auto, unfolding(crate::specs::Modules::module_verdict))]
pub fn judge_module(previous: u32, covered: u32, held: Module) -> Result<(), Refusal>
    ensures { result ≡ module_verdict previous covered held }
{
    station(held.n)?;
    order(previous, held.n)?;
    uncovered(covered)?;
    fitting(held)
}

// The kinds of step, field by field from left to right, then the buffer: the first fault counts.

#[tactic(auto, unfolding(crate::specs::Verdict::command_verdict))]
fn judge_command(n: u32, a: u32, f: u32, w: u32) -> Result<(), Refusal>
    ensures { result ≡ command_verdict n a f w }
{
    command_station(n)?;
    subaddress(a)?;
    function(f)?;
    command_word(n, a, f, w)
}

#[tactic(auto, unfolding(crate::specs::Verdict::front_verdict))]
fn judge_front(n: u32, a: u32, v: u32) -> Result<(), Refusal>
    ensures { result ≡ front_verdict n a v }
{
    station(n)?;
    subaddress(a)?;
    word(v)
}

#[tactic(auto, unfolding(crate::specs::Verdict::inhibit_verdict))]
fn judge_inhibit(v: u32) -> Result<(), Refusal>
    ensures { result ≡ inhibit_verdict v }
{
    inhibit(v)
}

#[tactic(auto, unfolding(crate::specs::Verdict::scan_verdict, crate::specs::Verdict::short_scan_verdict))]
fn judge_scan(
    at: Entry,
    n: u32,
    a: u32,
    f: u32,
    to: u32,
    limit: u32,
    lent: usize,
) -> Result<(), Refusal>
    ensures general { at ≡ Entry.General → result ≡ scan_verdict n a f to limit lent }
    ensures processor { at ≡ Entry.Processor → result ≡ short_scan_verdict n a f to limit lent }
{
    station(n)?;
    subaddress(a)?;
    transfer(f)?;
    range(n, to)?;
    length(limit)?;
    entry_length(at, limit)?;
    room_for(limit, lent)
}

#[tactic(auto, unfolding(crate::specs::Verdict::repeat_verdict, crate::specs::Verdict::short_repeat_verdict))]
fn judge_repeat(
    at: Entry,
    n: u32,
    a: u32,
    f: u32,
    limit: u32,
    tries: u32,
    lent: usize,
) -> Result<(), Refusal>
    ensures general { at ≡ Entry.General → result ≡ repeat_verdict n a f limit tries lent }
    ensures processor { at ≡ Entry.Processor → result ≡ short_repeat_verdict n a f limit tries lent }
{
    station(n)?;
    subaddress(a)?;
    transfer(f)?;
    length(limit)?;
    entry_length(at, limit)?;
    number_of_tries(tries)?;
    room_for(limit, lent)
}

#[tactic(auto, unfolding(crate::specs::Verdict::stop_verdict, crate::specs::Verdict::short_stop_verdict))]
fn judge_stop(at: Entry, n: u32, a: u32, f: u32, limit: u32, lent: usize) -> Result<(), Refusal>
    ensures general { at ≡ Entry.General → result ≡ stop_verdict n a f limit lent }
    ensures processor { at ≡ Entry.Processor → result ≡ short_stop_verdict n a f limit lent }
{
    station(n)?;
    subaddress(a)?;
    transfer(f)?;
    length(limit)?;
    entry_length(at, limit)?;
    room_for(limit, lent)
}

#[tactic(auto, unfolding(crate::specs::Verdict::put_verdict))]
fn judge_put(n: u32, a: u32, to: u32, limit: u32, w: u32) -> Result<(), Refusal>
    ensures { result ≡ put_verdict n a to limit w }
{
    station(n)?;
    subaddress(a)?;
    range(n, to)?;
    length(limit)?;
    word(w)
}

#[tactic(auto, unfolding(crate::specs::Verdict::put_lent_verdict))]
fn judge_put_lent(n: u32, a: u32, to: u32, limit: u32, buffer: &[u32]) -> Result<(), Refusal>
    ensures { result ≡ put_lent_verdict n a to limit buffer.now }
{
    station(n)?;
    subaddress(a)?;
    range(n, to)?;
    length(limit)?;
    room_for(limit, buffer.len())?;
    offered(buffer, limit)
}

#[tactic(auto, unfolding(crate::specs::Verdict::within_verdict))]
fn judge_within(n: u32, to: u32, lo: u32, hi: u32, lent: usize) -> Result<(), Refusal>
    ensures { result ≡ within_verdict n to lo hi lent }
{
    station(n)?;
    range(n, to)?;
    window(lo, hi)?;
    room_for_places(n, to, lent)
}
