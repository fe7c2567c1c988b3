// Scan: from subaddress a of station n on, each next subaddress after Q = 1 and the next station after Q = 0 or A15, up to station `to`.
ghost use Rattle.std.specs.Prelude.{◌≡◌, ◌≤◌, length};
ghost use Rattle.station.specs.Accepted.{ReadFunction};
ghost use Rattle.dataway.specs.Crate.{FitCrate};
ghost use Rattle.transfer.specs.Cycle.{transfer_of, buffer_after};
ghost use Rattle.transfer.specs.Scan.{scan_of};

use crate::{CUT_SHORT, LAST_SUBADDRESS, LIMIT_REACHED, Transfer};

// The loop over stations and subaddresses is left from inside when the limit is reached. Words are counted beside it, since Q = 0 stores none.
pub fn scan(
    memory: &mut [u32],
    buffer: &mut [u32],
    n: u32,
    a: u32,
    f: u32,
    to: u32,
    limit: u32,
) -> Transfer
    requires fit_crate { FitCrate memory.old }
    requires fields { (1 ≤ n) × (n ≤ to) × (to ≤ 23) × (a ≤ 15) × ReadFunction f × (1 ≤ limit) × (limit ≤ 512) × (limit ≤ length buffer.old) }
    ensures answer { result ≡ transfer_of (scan_of memory.old n a f to limit) }
    ensures memory { memory.new ≡ (scan_of memory.old n a f to limit).memory }
    ensures buffer { buffer.new ≡ buffer_after (scan_of memory.old n a f to limit) buffer.old }
{
    let mut end = CUT_SHORT;
    let mut words: u32 = 0;
    let mut cycles: u32 = 0;
    let mut first = a;
    'stations: for station in n..=to {
        let span = dataway::accepted(memory, station, f);
        for subaddress in first..=LAST_SUBADDRESS {
            let reply = dataway::cycle(memory, span, station, subaddress, f);
            cycles += 1;
            if reply.q != 1 {
                break;
            }
            buffer[words as usize] = reply.r;
            words += 1;
            if words == limit {
                end = LIMIT_REACHED;
                break 'stations;
            }
        }
        first = 0;
    }
    Transfer { end, words, cycles }
}
