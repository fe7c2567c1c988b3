// Repeat: the same command again and again, until the limit is reached, it is not accepted, or the tries are spent.
ghost use Rattle.std.specs.Prelude.{◌≡◌, ◌≤◌, length};
ghost use Rattle.station.specs.Accepted.{ReadFunction};
ghost use Rattle.dataway.specs.Crate.{FitCrate};
ghost use Rattle.transfer.specs.Cycle.{transfer_of, buffer_after};
ghost use Rattle.transfer.specs.Repeat.{repeat_of};

use crate::{CUT_SHORT, LIMIT_REACHED, NOT_ACCEPTED, Transfer};

// The limit comes first: a word that reaches it on the last try is end 1. X = 0 on the last try is end 3.
// Each way out adds its own cycle to the tries before it: LLVM keeps a `let cycles = tried + 1` beside them, or an inclusive range, at three instructions a turn.
pub fn repeat(
    memory: &mut [u32],
    buffer: &mut [u32],
    n: u32,
    a: u32,
    f: u32,
    limit: u32,
    tries: u32,
) -> Transfer
    requires fit_crate { FitCrate memory.old }
    requires fields { (1 ≤ n) × (n ≤ 23) × (a ≤ 15) × ReadFunction f × (1 ≤ limit) × (limit ≤ 512) × (limit ≤ length buffer.old) × (tries ≤ 4096) }
    ensures answer { result ≡ transfer_of (repeat_of memory.old n a f limit tries) }
    ensures memory { memory.new ≡ (repeat_of memory.old n a f limit tries).memory }
    ensures buffer { buffer.new ≡ buffer_after (repeat_of memory.old n a f limit tries) buffer.old }
{
    let span = dataway::accepted(memory, n, f);
    let mut words: u32 = 0;
    for tried in 0..tries {
        let reply = dataway::cycle(memory, span, n, a, f);
        if reply.x != 1 {
            return Transfer {
                end: NOT_ACCEPTED,
                words,
                cycles: tried + 1,
            };
        }
        if reply.q == 1 {
            buffer[words as usize] = reply.r;
            words += 1;
            if words == limit {
                return Transfer {
                    end: LIMIT_REACHED,
                    words,
                    cycles: tried + 1,
                };
            }
        }
    }
    Transfer {
        end: CUT_SHORT,
        words,
        cycles: tries,
    }
}
