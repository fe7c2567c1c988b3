// Stop: the same command again and again, until the limit is reached, it is not accepted, or one gives Q = 0.
ghost use Rattle.std.specs.Prelude.{◌≡◌, ◌≤◌, length};
ghost use Rattle.station.specs.Accepted.{ReadFunction};
ghost use Rattle.dataway.specs.Crate.{FitCrate};
ghost use Rattle.transfer.specs.Cycle.{transfer_of, buffer_after};
ghost use Rattle.transfer.specs.Stop.{stop_of};

use crate::{CUT_SHORT, LIMIT_REACHED, NOT_ACCEPTED, Transfer};

// The word that reaches the limit ends it with no further cycle; a cycle that gives X = 0 or Q = 0 is counted, and X comes first.
pub fn stop(memory: &mut [u32], buffer: &mut [u32], n: u32, a: u32, f: u32, limit: u32) -> Transfer
    requires fit_crate { FitCrate memory.old }
    requires fields { (1 ≤ n) × (n ≤ 23) × (a ≤ 15) × ReadFunction f × (limit ≤ 512) × (limit ≤ length buffer.old) }
    ensures answer { result ≡ transfer_of (stop_of memory.old n a f limit) }
    ensures memory { memory.new ≡ (stop_of memory.old n a f limit).memory }
    ensures buffer { buffer.new ≡ buffer_after (stop_of memory.old n a f limit) buffer.old }
{
    let span = dataway::accepted(memory, n, f);
    for words in 0..limit {
        let cycles = words + 1;
        let reply = dataway::cycle(memory, span, n, a, f);
        if reply.x != 1 {
            return Transfer {
                end: NOT_ACCEPTED,
                words,
                cycles,
            };
        }
        if reply.q != 1 {
            return Transfer {
                end: CUT_SHORT,
                words,
                cycles,
            };
        }
        buffer[words as usize] = reply.r;
    }
    Transfer {
        end: LIMIT_REACHED,
        words: limit,
        cycles: limit,
    }
}
