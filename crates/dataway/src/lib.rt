// The Dataway of one crate, over the lent crate memory: what reaches a station of it, many, or the controller, the common controls, the Look-at-Me reading, and the
// test whether the memory is fit.
#![tactic(auto)]

ghost use Rattle.std.specs.Prelude.{◌≡◌, ◌≤◌, ◌+◌, ◌*◌, length};
ghost use Rattle.blocks.specs.Blocks.{word};
ghost use Rattle.kinds.specs.Table.{FitModule};
ghost use Rattle.station.specs.Accepted.{ReadFunction};
ghost use Rattle.dataway.specs.Crate.{FitCrate};
ghost use Rattle.dataway.specs.Addressed.{Commanded, sent_of};
ghost use Rattle.dataway.specs.Stations.{reply_of, after_command, AcceptsAt, taken_of, after_front, occupied_by, with_module};

use acceptance::Span;
use address::{ALL_STATIONS, command_many, common, internal};
use blocks::{BLOCK_WORDS, STATIONS};
use kinds::Module;
use station::block::COVERED;
use station::{NOT_ACCEPTED, Reply};
use std::ops::Range;

mod address;
pub mod control;
pub mod fitness;
pub mod lam;

// Where Inhibit stands in the memory.
pub const INHIBIT: usize = 0;

// And the Station Number Register.
pub const STATION_NUMBERS: usize = 1;

// The place of block n in the memory.
fn block(n: usize) -> Range<usize>
    requires { n ≤ 23 }
    ensures start { result.start ≡ 32 * n }
    ensures end { result.end ≡ 32 * n + 32 }
{
    let from = BLOCK_WORDS * n;
    from..from + BLOCK_WORDS
}

// One command to station n.
pub fn command(memory: &mut [u32], n: u32, a: u32, f: u32, w: u32) -> Reply
    requires fit_crate { FitCrate memory.old }
    requires fields { (1 ≤ n) × (n ≤ 23) × (a ≤ 15) × (f ≤ 31) × (w ≤ 16777215) }
    ensures answer { result ≡ reply_of memory.old n a f w }
    ensures memory { memory.new ≡ after_command memory.old n a f w }
{
    station::command(&mut memory[block(n as usize)], a, f, w)
}

// A command to N: a station, the stations of the Station Number Register, all 23, or the controller itself.
#[tactic(auto, unfolding(crate::specs::Addressed::sent_of))]
pub fn send(memory: &mut [u32], n: u32, a: u32, f: u32, w: u32) -> Reply
    requires fit_crate { FitCrate memory.old }
    requires fields { (1 ≤ n) × (a ≤ 15) × (f ≤ 31) × (w ≤ 16777215) }
    ensures { sent_of memory.old n a f w ≡ record { memory = memory.new; reply = result } }
{
    match n {
        1..=23 => command(memory, n, a, f, w),
        24 => {
            let pattern = memory[STATION_NUMBERS];
            command_many(memory, pattern, a, f, w)
        }
        26 => command_many(memory, ALL_STATIONS, a, f, w),
        28 => common(memory, a, f),
        30 => internal(memory, a, f, w),
        _ => NOT_ACCEPTED,
    }
}

// The subaddresses at which station n accepts function f.
pub fn accepted(memory: &[u32], n: u32, f: u32) -> Span
    requires fit_crate { FitCrate memory.now }
    requires fields { (1 ≤ n) × (n ≤ 23) × (f ≤ 31) }
    ensures { AcceptsAt memory.now n f result }
{
    station::accepted(&memory[block(n as usize)], f)
}

// One cycle of a block transfer at station n, which was asked before which subaddresses it accepts.
pub fn cycle(memory: &mut [u32], span: Span, n: u32, a: u32, f: u32) -> Reply
    requires fit_crate { FitCrate memory.old }
    requires accepts_at { AcceptsAt memory.old n f span }
    requires fields { (1 ≤ n) × (n ≤ 23) × (a ≤ 15) × ReadFunction f }
    ensures answer { result ≡ reply_of memory.old n a f 0 }
    ensures memory { memory.new ≡ after_command memory.old n a f 0 }
{
    station::cycle(&mut memory[block(n as usize)], span, a, f)
}

// One front event at station n: 0 not taken, 1 taken, 2 taken and a status bit went from 0 to 1, 3 the word was lost in a full buffer memory.
pub fn front_event(memory: &mut [u32], n: u32, a: u32, v: u32) -> u32
    requires fit_crate { FitCrate memory.old }
    requires fields { (1 ≤ n) × (n ≤ 23) × (a ≤ 15) × (v ≤ 16777215) }
    ensures answer { result ≡ taken_of memory.old n a v }
    ensures memory { memory.new ≡ after_front memory.old n a v }
{
    let inhibit = memory[INHIBIT];
    panel::front::front_event(&mut memory[block(n as usize)], inhibit, a, v)
}

// Word 7 of station n, 1 where its left neighbour covers it. What is no station is not covered.
pub fn covered(memory: &[u32], n: u32) -> u32
    requires { FitCrate memory.now }
    ensures { result ≡ word memory.now n 7 }
{
    memory
        .get(BLOCK_WORDS * n as usize + COVERED)
        .copied()
        .unwrap_or(0)
}

// Puts a module into the stations that it fills: its own, and the one that it covers.
fn occupy(memory: &mut [u32], held: Module)
    requires memory_len { length memory.old ≡ 768 }
    requires fit_module { FitModule held }
    ensures { memory.new ≡ occupied_by memory.old held }
{
    let n = held.n as usize;
    panel::control::put_module(&mut memory[block(n)], held);
    if held.wide == 2 {
        let covered = &mut memory[block(n + 1)];
        covered.fill(0);
        covered[COVERED] = 1;
    }
}

// Puts a module in, over whatever stood there. Nothing covers the station to its right, if there is one.
#[tactic(auto, unfolding(crate::specs::Stations::with_module))]
pub fn put_module(memory: &mut [u32], held: Module)
    requires fit_crate { FitCrate memory.old }
    requires fit_module { FitModule held }
    ensures { memory.new ≡ with_module memory.old held }
{
    occupy(memory, held);
    let next = held.n as usize + held.wide as usize;
    if next <= STATIONS {
        memory[BLOCK_WORDS * next + COVERED] = 0;
    }
}
