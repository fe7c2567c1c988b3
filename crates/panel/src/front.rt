// Front events at a station.
ghost use Rattle.std.specs.Prelude.{◌≡◌, ◌<◌, ◌^◌, length};
ghost use Rattle.station.specs.Block.{status_of, FitBlock};
ghost use Rattle.station.specs.Front.{Event, rises, digit_of, held_of, counted_of, stored_of, front_of};

use kinds::{BUFFER_MEMORY, INPUT_REGISTER, SCALER, UP_DOWN_COUNTER};
use station::block::{COUNT, FILL, HEAD, KIND, REGISTERS, STATUS, set_status_bit};
use station::group1;
use word24::counter::count24;
use word24::word::clear_bits;

// The digits of an event: not taken, taken, taken with a status bit gone from 0 to 1, its word lost in a full buffer memory. They are numbers, since the digit
// is what is answered and printed.
const NOT_TAKEN: u32 = 0;

const TAKEN: u32 = 1;

const RAISED: u32 = 2;

const LOST: u32 = 3;

// The status word of a block.
fn status(b: &[u32]) -> u32
    requires { length b.now ≡ 32 }
    ensures { result ≡ status_of b.now }
{
    b[STATUS]
}

// The digit of a taken event, from the status word before it and the one after.
fn digit(before: u32, after: u32) -> u32
    ensures { result ≡ digit_of (rises before after) }
{
    if 0 < clear_bits(after, before) {
        RAISED
    } else {
        TAKEN
    }
}

// An input register holds v.
#[tactic(auto, unfolding(station::specs::Front::held_of))]
fn hold(b: &mut [u32], a: u32, v: u32)
    requires fit_block { FitBlock b.old }
    requires a_bound { a < 16 }
    ensures { b.new ≡ held_of b.old a v }
{
    b[REGISTERS + a as usize] = v;
    set_status_bit(b, a);
}

// An up-down counter counts by v.
#[tactic(auto, unfolding(station::specs::Front::counted_of))]
fn count(b: &mut [u32], a: u32, v: u32)
    requires fit_block { FitBlock b.old }
    requires a_bound { a < 16 }
    requires v_bound { v < 2 ^ 24 }
    ensures { b.new ≡ counted_of b.old a v }
{
    let i = REGISTERS + a as usize;
    let counted = count24(b[i], v);
    b[i] = counted.value;
    if counted.flag {
        set_status_bit(b, a);
    }
}

// A buffer memory stores v behind its newest word; when it is full, v is lost. Gives the digit.
#[tactic(auto, unfolding(station::specs::Front::stored_of))]
fn store(b: &mut [u32], v: u32) -> u32
    requires { FitBlock b.old }
    ensures { stored_of b.old v ≡ record { block = b.new; taken = result } }
{
    let head = b[HEAD];
    let fill = b[FILL];
    let before = status(b);
    if 16 <= fill {
        set_status_bit(b, 1);
        return LOST;
    }
    let place = (head + fill) % 16;
    b[REGISTERS + place as usize] = v;
    b[FILL] = fill + 1;
    set_status_bit(b, 0);
    digit(before, status(b))
}

// An event with the word v at subaddress a, given the crate's Inhibit: its digit.
#[tactic(auto, unfolding(station::specs::Front::front_of, station::specs::Front::kind_events_of))]
pub fn front_event(b: &mut [u32], inhibit: u32, a: u32, v: u32) -> u32
    requires fit_block { FitBlock b.old }
    requires a_bound { a < 16 }
    requires v_bound { v < 2 ^ 24 }
    ensures { front_of inhibit b.old a v ≡ record { block = b.new; taken = result } }
{
    let kind = b[KIND];
    let before = status(b);
    if inhibit == 1 || b[COUNT] <= a {
        return NOT_TAKEN;
    }
    match kind {
        SCALER => group1::add(b, a, v),
        INPUT_REGISTER => hold(b, a, v),
        BUFFER_MEMORY => return store(b, v),
        UP_DOWN_COUNTER => count(b, a, v),
        _ => return NOT_TAKEN,
    }
    digit(before, status(b))
}
