// One station of the crate: the 32 functions, over the station's lent block of 32 words.
#![tactic(auto)]

ghost use Rattle.std.specs.Prelude.{◌≡◌, ◌<◌, ◌^◌};
ghost use Rattle.acceptance.specs.Classes.{class_of, admits};
ghost use Rattle.station.specs.Accepted.{Accepts, ReadFunction};
ghost use Rattle.station.specs.Block.{FitBlock, kind_of, count_of, sources_of};
ghost use Rattle.station.specs.Outcome.{Outcome};
ghost use Rattle.station.specs.Command.{command_of};

pub mod block;
pub mod buffer;
pub mod group1;
pub mod group2;
pub mod lam;

use acceptance::{Span, class_of, has, span_of};
use block::{COUNT, KIND, sources};
use group1::{read, read_and_clear, read_complement};

// The answer to a command: Command Accepted, Response and read word. X and Q are the bits 0 and 1, and no bool: they are printed, and joined bit by bit.
#[derive(Clone, Copy)]
pub struct Reply {
    pub x: u32,
    pub q: u32,
    pub r: u32,
}

// Not accepted.
pub const NOT_ACCEPTED: Reply = Reply { x: 0, q: 0, r: 0 };

// Accepted, with nothing to read.
pub const DONE: Reply = Reply { x: 1, q: 1, r: 0 };

// Accepted, with the word r read.
fn gives(r: u32) -> Reply
    ensures { result ≡ record { x = 1; q = 1; r = r } }
{
    Reply { r, ..DONE }
}

// The subaddresses at which the station accepts function f: those of the class of its kind. No other function decides it.
pub fn accepted(b: &[u32], f: u32) -> Span
    requires fit_block { FitBlock b.now }
    requires f_bound { f < 32 }
    ensures { Accepts b.now f result }
{
    let class = class_of(b[KIND], f);
    span_of(class, b[COUNT], sources(b))
}

// Whether the station accepts a command.
fn accepts(b: &[u32], a: u32, f: u32) -> bool
    requires fit_block { FitBlock b.now }
    requires f_bound { f < 32 }
    ensures { result ≡ admits (class_of (kind_of b.now) f) a (count_of b.now) (sources_of b.now) }
{
    has(accepted(b, f), a)
}

// One command to the station: subaddress a, function f, write word w.
#[tactic(auto, unfolding(crate::specs::Command::command_of, crate::specs::Command::functions_of))]
pub fn command(b: &mut [u32], a: u32, f: u32, w: u32) -> Reply
    requires fit_block { FitBlock b.old }
    requires a_bound { a < 16 }
    requires f_bound { f < 32 }
    requires w_bound { w < 2 ^ 24 }
    ensures { command_of b.old a f w ≡ record { block = b.new; reply = result } }
{
    if !accepts(b, a, f) {
        return NOT_ACCEPTED;
    }
    match f {
        0 => group1::read(b, a),
        1 => group2::read(b, a),
        2 => group1::read_and_clear(b, a),
        3 => group1::read_complement(b, a),
        8 => lam::test_lam(b, a),
        9 => group1::clear(b, a),
        10 => lam::clear_lam(b, a),
        11 => group2::clear(b, a),
        16 => group1::overwrite(b, a, w),
        17 => group2::overwrite(b, w),
        18 => group1::selective_set(b, a, w),
        19 => group2::selective_set(b, w),
        21 => group1::selective_clear(b, a, w),
        23 => group2::selective_clear(b, a, w),
        24 => lam::disable(b, a),
        25 => group1::execute(b, a),
        26 => lam::enable(b, a),
        27 => lam::test_status(b, a),
        4..=7 | 12..=15 | 20 | 22 | 28.. => NOT_ACCEPTED,
    }
}

// One cycle of a block transfer: a command with no word to write, at a station that was asked before which subaddresses it accepts.
#[tactic(auto, unfolding(crate::specs::Command::command_of, crate::specs::Command::functions_of))]
pub fn cycle(b: &mut [u32], span: Span, a: u32, f: u32) -> Reply
    requires fit_block { FitBlock b.old }
    requires accepts_at { Accepts b.old f span }
    requires a_bound { a < 16 }
    requires read_function { ReadFunction f }
    ensures { command_of b.old a f 0 ≡ record { block = b.new; reply = result } }
{
    if !has(span, a) {
        return NOT_ACCEPTED;
    }
    match f {
        0 => read(b, a),
        2 => read_and_clear(b, a),
        _ => read_complement(b, a),
    }
}
