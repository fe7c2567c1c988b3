// The rows of the table of refusals: each function sends back the refusal of its row where its field is bad.
ghost use Rattle.std.specs.Prelude.{◌≡◌, take, nat_le, Ok};
ghost use Rattle.std.specs.List.{list_all};
ghost use Rattle.step.specs.Modules.{order_then, covered_then, module_then};
ghost use Rattle.step.specs.Verdict.{within, unless, station_then, subaddress_then, function_then, transfer_then, word_then, inhibit_then};
ghost use Rattle.step.specs.Verdict.{range_then, limit_then, long_then, tries_then, lent_then, offered_then};
ghost use Rattle.step.specs.Verdict.{places_of, crossed_then, window_then, room_then};
ghost use Rattle.step.specs.Verdict.{command_station_then, command_word_then};

use crate::{Entry, Refusal};
use kinds::{Module, in_table};

// The edges of the fields.
pub const LAST_STATION: u32 = 23;

const LAST_SUBADDRESS: u32 = 15;

// The subaddresses of a station.
pub const SUBADDRESSES: u32 = 16;

const LAST_FUNCTION: u32 = 31;

const WIDEST_WORD: u32 = 16777215;

const WIDEST_REGISTER: u32 = 8388607;

const MOST_WORDS: u32 = 512;

// The most words of a transfer at the trigger processor's entry.
const MOST_SHORT: u32 = 32;

const MOST_TRIES: u32 = 4096;

// x is low to high, both included.
pub fn within(low: u32, x: u32, high: u32) -> bool
    ensures { result ≡ within low x high }
{
    low <= x && x <= high
}

// Nothing to send back, unless the test failed.
pub fn ensure(ok: bool, q: Refusal) -> Result<(), Refusal>
    ensures { result ≡ unless ok q (Ok tt) }
{
    if ok { Ok(()) } else { Err(q) }
}

pub fn station(n: u32) -> Result<(), Refusal>
    ensures { result ≡ station_then n (Ok tt) }
{
    ensure(within(1, n, LAST_STATION), Refusal::NoSuchStation)
}

// The N of a command: a station; 24 and 26, which send it to many; 28 and 30, the controller itself.
pub(crate) fn command_station(n: u32) -> Result<(), Refusal>
    ensures { result ≡ command_station_then n (Ok tt) }
{
    ensure(
        within(1, n, LAST_STATION) || matches!(n, 24 | 26 | 28 | 30),
        Refusal::NoSuchStation,
    )
}

pub(crate) fn subaddress(a: u32) -> Result<(), Refusal>
    ensures { result ≡ subaddress_then a (Ok tt) }
{
    ensure(a <= LAST_SUBADDRESS, Refusal::NoSuchSubaddress)
}

pub(crate) fn function(f: u32) -> Result<(), Refusal>
    ensures { result ≡ function_then f (Ok tt) }
{
    ensure(f <= LAST_FUNCTION, Refusal::NoSuchFunction)
}

// The functions of a block transfer.
pub(crate) fn transfer(f: u32) -> Result<(), Refusal>
    ensures { result ≡ transfer_then f (Ok tt) }
{
    ensure(matches!(f, 0 | 2 | 3), Refusal::NoSuchFunction)
}

pub(crate) fn word(w: u32) -> Result<(), Refusal>
    ensures { result ≡ word_then w (Ok tt) }
{
    ensure(w <= WIDEST_WORD, Refusal::OverwideWord)
}

// The word of a command: at N30 A8 F16 that of the Station Number Register.
pub(crate) fn command_word(n: u32, a: u32, f: u32, w: u32) -> Result<(), Refusal>
    ensures { result ≡ command_word_then n a f w (Ok tt) }
{
    let widest = if n == 30 && a == 8 && f == 16 {
        WIDEST_REGISTER
    } else {
        WIDEST_WORD
    };
    ensure(w <= widest, Refusal::OverwideWord)
}

// None of the first `limit` words is above 24 bits. They are cut off first: `take` would count them beside the slice.
// Not inlined: among the rows of the other steps each word costs more.
#[inline(never)]
fn are_narrow(words: &[u32], limit: usize) -> bool
    ensures { result ≡ list_all (λ w. nat_le w WIDEST_WORD) (take limit words.now) }
{
    words[..limit.min(words.len())]
        .iter()
        .all(|w| *w <= WIDEST_WORD)
}

#[tactic(auto, using(crate::proofs::Narrow::are_narrow_all))]
pub(crate) fn offered(words: &[u32], limit: u32) -> Result<(), Refusal>
    ensures { result ≡ offered_then (take limit words.now) (Ok tt) }
{
    ensure(are_narrow(words, limit as usize), Refusal::OverwideWord)
}

pub(crate) fn inhibit(v: u32) -> Result<(), Refusal>
    ensures { result ≡ inhibit_then v (Ok tt) }
{
    ensure(v <= 1, Refusal::OverwideWord)
}

pub fn range(n: u32, to: u32) -> Result<(), Refusal>
    ensures { result ≡ range_then n to (Ok tt) }
{
    ensure(within(n, to, LAST_STATION), Refusal::CrossedRange)
}

pub(crate) fn length(limit: u32) -> Result<(), Refusal>
    ensures { result ≡ limit_then limit (Ok tt) }
{
    ensure(within(1, limit, MOST_WORDS), Refusal::BadLength)
}

// The trigger processor's entry alone has this row.
pub(crate) fn entry_length(at: Entry, limit: u32) -> Result<(), Refusal>
    ensures general { at ≡ Entry.General → result ≡ Ok tt }
    ensures processor { at ≡ Entry.Processor → result ≡ long_then limit (Ok tt) }
{
    ensure(
        at == Entry::General || limit <= MOST_SHORT,
        Refusal::LongTransfer,
    )
}

pub(crate) fn number_of_tries(tries: u32) -> Result<(), Refusal>
    ensures { result ≡ tries_then tries (Ok tt) }
{
    ensure(within(1, tries, MOST_TRIES), Refusal::BadLength)
}

pub(crate) fn room_for(limit: u32, lent: usize) -> Result<(), Refusal>
    ensures { result ≡ lent_then limit lent (Ok tt) }
{
    ensure(limit as usize <= lent, Refusal::ShortBuffer)
}

pub fn crossed(lo: u32, hi: u32) -> Result<(), Refusal>
    ensures { result ≡ crossed_then lo hi (Ok tt) }
{
    ensure(lo <= hi, Refusal::CrossedWindow)
}

// A window from lo to hi: 5 for lo, 5 for hi, then 14.
pub fn window(lo: u32, hi: u32) -> Result<(), Refusal>
    ensures { result ≡ window_then lo hi (Ok tt) }
{
    word(lo)?;
    word(hi)?;
    crossed(lo, hi)
}

// How many subaddresses the stations n to `to` have: 16 each, none where `to` is below n.
pub fn places(n: u32, to: u32) -> usize
    ensures { result ≡ places_of n to }
{
    SUBADDRESSES as usize * (to as usize + 1).saturating_sub(n as usize)
}

pub fn room_for_places(n: u32, to: u32, lent: usize) -> Result<(), Refusal>
    ensures { result ≡ room_then n to lent (Ok tt) }
{
    ensure(places(n, to) <= lent, Refusal::ShortBuffer)
}

pub(crate) fn order(previous: u32, n: u32) -> Result<(), Refusal>
    ensures { result ≡ order_then previous n (Ok tt) }
{
    ensure(previous < n, Refusal::OutOfOrder)
}

pub(crate) fn uncovered(covered: u32) -> Result<(), Refusal>
    ensures { result ≡ covered_then covered (Ok tt) }
{
    ensure(covered == 0, Refusal::CoveredStation)
}

// A kind of module (0 is an empty station), with r registers and a width as the table of kinds says; and one station wide, or with a station to its right.
// A sum of station and width could wrap: the station is judged with all else, not before it.
pub(crate) fn fitting(held: Module) -> Result<(), Refusal>
    ensures { result ≡ module_then held (Ok tt) }
{
    let fits_kind = 1 <= held.kind && in_table(held.kind, held.r, held.wide);
    let has_room = held.wide < 2 || held.n < LAST_STATION;
    ensure(fits_kind && has_room, Refusal::BadModule)
}
