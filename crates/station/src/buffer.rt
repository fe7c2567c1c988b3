// The Group 1 commands at a buffer memory, whose class has A0 alone. They are about its oldest word, which stands at head.
ghost use Rattle.std.specs.Prelude.{◌≡◌, ◌≤◌, if◌then◌else◌, eqb};
ghost use Rattle.station.specs.Block.{FitBlock, fill_of};
ghost use Rattle.station.specs.Outcome.{Outcome};
ghost use Rattle.station.specs.Buffer.{oldest_of, buffer_read_of, buffer_read_complement_of, without_oldest, buffer_read_and_clear_of, buffer_clear_of};

use crate::block::{FILL, HEAD, MASK, REGISTERS, STATUS, zero_module};
use crate::{DONE, Reply, gives};
use word24::word::{complement24, without_bit};

// Accepted, but there is no word to give.
const NO_WORD: Reply = Reply { x: 1, q: 0, r: 0 };

// The oldest word, if there is one.
fn oldest(b: &[u32]) -> Option<u32>
    requires { FitBlock b.now }
    ensures { result ≡ (if eqb (fill_of b.now) 0 then None else Some (oldest_of b.now)) }
{
    if b[FILL] == 0 {
        None
    } else {
        Some(b[REGISTERS + b[HEAD] as usize])
    }
}

// F0: the oldest word.
#[tactic(auto, unfolding(crate::specs::Buffer::buffer_read_of))]
pub fn read(b: &[u32]) -> Reply
    requires { FitBlock b.now }
    ensures { buffer_read_of b.now 0 ≡ record { block = b.now; reply = result } }
{
    oldest(b).map_or(NO_WORD, gives)
}

// F3: the complement of the oldest word.
#[tactic(auto, unfolding(crate::specs::Buffer::buffer_read_complement_of))]
pub fn read_complement(b: &[u32]) -> Reply
    requires { FitBlock b.now }
    ensures { buffer_read_complement_of b.now 0 ≡ record { block = b.now; reply = result } }
{
    oldest(b).map_or(NO_WORD, |word| gives(complement24(word)))
}

// Takes the oldest word out.
#[tactic(auto, unfolding(crate::specs::Buffer::without_oldest))]
fn drop_oldest(b: &mut [u32])
    requires fit_block { FitBlock b.old }
    requires not_empty { 1 ≤ fill_of b.old }
    ensures { b.new ≡ without_oldest b.old }
{
    let head = b[HEAD];
    let fill = b[FILL];
    b[REGISTERS + head as usize] = 0;
    b[HEAD] = (head + 1) % 16;
    b[FILL] = fill - 1;
    if fill == 1 {
        b[STATUS] = without_bit(b[STATUS], 0);
    }
}

// F2: the oldest word, which is taken out.
#[tactic(auto, unfolding(crate::specs::Buffer::buffer_read_and_clear_of))]
pub fn read_and_clear(b: &mut [u32]) -> Reply
    requires { FitBlock b.old }
    ensures { buffer_read_and_clear_of b.old 0 ≡ record { block = b.new; reply = result } }
{
    let Some(word) = oldest(b) else {
        return NO_WORD;
    };
    drop_oldest(b);
    gives(word)
}

// F9: the memory is emptied, and status bit 0 cleared.
#[tactic(auto, unfolding(crate::specs::Buffer::buffer_clear_of))]
pub fn clear(b: &mut [u32]) -> Reply
    requires { FitBlock b.old }
    ensures { buffer_clear_of b.old 0 ≡ record { block = b.new; reply = result } }
{
    let status = without_bit(b[STATUS], 0);
    let mask = b[MASK];
    zero_module(b, status, mask);
    DONE
}
