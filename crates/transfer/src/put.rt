// Put, the write scan: the way of a scan, each cycle F16 with the first of the words offered that is not used up. Q = 1 uses it up.
ghost use Rattle.std.specs.Prelude.{◌≡◌, ℕ, ◌≤◌, length, get_or, take, replicate};
ghost use Rattle.dataway.specs.Crate.{FitCrate};
ghost use Rattle.transfer.specs.Cycle.{transfer_of};
ghost use Rattle.transfer.specs.Put.{put_of};

use crate::{CUT_SHORT, LAST_SUBADDRESS, LIMIT_REACHED, Transfer};

// Overwrite: the function of every cycle.
const OVERWRITE: u32 = 16;

// The loop over stations and subaddresses is left from inside when all words offered are used up. It is not one with the scan's: one for both would need a
// closure that holds the memory and the buffer, and a span that the put never asks for.
// Not inlined: among the other steps each cycle costs more.
#[inline(never)]
pub fn put(memory: &mut [u32], offered: &[u32], n: u32, a: u32, to: u32) -> Transfer
    requires fit_crate { FitCrate memory.old }
    requires fields { (1 ≤ n) × (n ≤ to) × (to ≤ 23) × (a ≤ 15) }
    requires offered_len { (1 ≤ length offered.now) × (length offered.now ≤ 512) }
    requires narrow { (k : ℕ) → get_or offered.now k 0 ≤ 16777215 }
    ensures answer { result ≡ transfer_of (put_of memory.old n a to (length offered.now) offered.now) }
    ensures memory { memory.new ≡ (put_of memory.old n a to (length offered.now) offered.now).memory }
{
    let limit = offered.len() as u32;
    let mut end = CUT_SHORT;
    let mut words: u32 = 0;
    let mut cycles: u32 = 0;
    let mut first = a;
    'stations: for station in n..=to {
        for subaddress in first..=LAST_SUBADDRESS {
            let w = offered[words as usize];
            let reply = dataway::command(memory, station, subaddress, OVERWRITE, w);
            cycles += 1;
            if reply.q != 1 {
                break;
            }
            words += 1;
            if words == limit {
                end = LIMIT_REACHED;
                break 'stations;
            }
        }
        first = 0;
    }
    Transfer { end, words, cycles }
}

// The put of one word: each register met takes w.
pub fn put_word(memory: &mut [u32], n: u32, a: u32, to: u32, limit: u32, w: u32) -> Transfer
    requires fit_crate { FitCrate memory.old }
    requires fields { (1 ≤ n) × (n ≤ to) × (to ≤ 23) × (a ≤ 15) × (1 ≤ limit) × (limit ≤ 512) × (w ≤ 16777215) }
    ensures answer { result ≡ transfer_of (put_of memory.old n a to limit (replicate limit w)) }
    ensures memory { memory.new ≡ (put_of memory.old n a to limit (replicate limit w)).memory }
{
    let words = [w; 512];
    put(memory, &words[..limit as usize], n, a, to)
}

// The put of lent words: the first `limit` of them are offered.
pub fn put_lent(memory: &mut [u32], lent: &[u32], n: u32, a: u32, to: u32, limit: u32) -> Transfer
    requires fit_crate { FitCrate memory.old }
    requires fields { (1 ≤ n) × (n ≤ to) × (to ≤ 23) × (a ≤ 15) × (1 ≤ limit) × (limit ≤ 512) × (limit ≤ length lent.now) }
    requires narrow { (k : ℕ) → get_or (take limit lent.now) k 0 ≤ 16777215 }
    ensures answer { result ≡ transfer_of (put_of memory.old n a to limit (take limit lent.now)) }
    ensures memory { memory.new ≡ (put_of memory.old n a to limit (take limit lent.now)).memory }
{
    put(memory, &lent[..limit as usize], n, a, to)
}
