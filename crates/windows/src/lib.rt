// Registers inside a window, listed by number; `sheets` flags those of many windows in one pass. The number of a register is its station times 16 plus its
// subaddress, so that ascending numbers are stations ascending and then subaddresses; the words of its block are found from it.
#![tactic(auto)]

ghost use Rattle.std.specs.Prelude.{◌≡◌, if◌then◌else◌, length, Some, None, ◌+◌, ◌*◌, ◌/◌, ◌≤◌, ◌<◌};
ghost use Rattle.word24.specs.Word.{as_bit};
ghost use Rattle.step.specs.Verdict.{places_of};
ghost use Rattle.windows.specs.Within.{is_there, value_of, is_inside, within_of, listed_in};

use blocks::BLOCK_WORDS;
use kinds::{INPUT_REGISTER, SCALER, UP_DOWN_COUNTER};
use station::block::{COUNT, KIND, REGISTERS};
use step::fields::{SUBADDRESSES, within};

pub mod sheets;

// Where the block of register p's station begins.
fn block_at(p: u32) -> usize
    requires { p < 384 }
    ensures { result ≡ 32 * (p / 16) }
{
    BLOCK_WORDS * (p / SUBADDRESSES) as usize
}

// Reads register p, if it is there: below r of a scaler, an input register or an up-down counter.
#[tactic(auto, using(crate::proofs::WithinLaws::register_below, crate::proofs::WithinLaws::register_above, crate::proofs::WithinLaws::register_none))]
fn register(memory: &[u32], p: u32) -> Option<u32>
    requires memory_len { length memory.now ≡ 768 }
    requires p_bound { p < 384 }
    ensures { result ≡ (if is_there memory.now p then Some (value_of memory.now p) else None) }
{
    let at = block_at(p);
    let a = p % SUBADDRESSES;
    match memory[at + KIND] {
        SCALER | INPUT_REGISTER | UP_DOWN_COUNTER if a < memory[at + COUNT] => Some(
            memory[at + REGISTERS + a as usize],
        ),
        _ => None,
    }
}

// Register p is there, and the window from lo to hi holds its value.
#[tactic(auto, unfolding(crate::specs::Within::is_inside))]
fn is_inside(memory: &[u32], lo: u32, hi: u32, p: u32) -> bool
    requires memory_len { length memory.now ≡ 768 }
    requires p_bound { p < 384 }
    ensures { result ≡ is_inside memory.now lo hi p }
{
    register(memory, p).is_some_and(|v| within(lo, v, hi))
}

// Lists the registers of stations n to `to` whose values lie from lo to hi, and answers how many they are.
pub fn list_within(memory: &[u32], buffer: &mut [u32], n: u32, to: u32, lo: u32, hi: u32) -> u32
    requires memory_len { length memory.now ≡ 768 }
    requires fields { (1 ≤ n) × (n ≤ to) × (to ≤ 23) × (places_of n to ≤ length buffer.old) }
    ensures count { result ≡ length (within_of memory.now n to lo hi) }
    ensures buffer { buffer.new ≡ listed_in (within_of memory.now n to lo hi) buffer.old }
{
    let end = SUBADDRESSES * (to + 1);
    let mut count: u32 = 0;
    for p in SUBADDRESSES * n..end {
        if is_inside(memory, lo, hi, p) {
            buffer[count as usize] = p;
            count += 1;
        }
    }
    count
}
