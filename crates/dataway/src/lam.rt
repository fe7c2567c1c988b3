// The Look-at-Me reading: the L pattern, its count of ones, and the lowest requesting station by its trailing zeros.
ghost use Rattle.std.specs.Prelude.{◌≡◌, ◌≤◌, length};
ghost use Rattle.dataway.specs.Crate.{FitCrate};
ghost use Rattle.dataway.specs.Lam.{is_requesting, pattern_to, lam_of};

use crate::block;
use blocks::STATIONS;
use station::block::{MASK, STATUS};

// L, how many of its bits are 1, and the lowest requesting station, or 0.
#[derive(Clone, Copy)]
pub struct LamReading {
    pub l: u32,
    pub count: u32,
    pub first: u32,
}

// Whether station n requests.
fn is_requesting(memory: &[u32], n: usize) -> bool
    requires memory_len { length memory.now ≡ 768 }
    requires n_bound { n ≤ 23 }
    ensures { result ≡ is_requesting memory.now n }
{
    let b = &memory[block(n)];
    b[STATUS] & b[MASK] > 0
}

// L: bit n of it belongs to station n + 1.
fn l_pattern(memory: &[u32]) -> u32
    requires { length memory.now ≡ 768 }
    ensures { result ≡ pattern_to 23 memory.now }
{
    let mut l = 0;
    for n in 0..STATIONS {
        l |= u32::from(is_requesting(memory, n + 1)) << n;
    }
    l
}

// The whole reading.
pub fn look_at_me(memory: &[u32]) -> LamReading
    requires { FitCrate memory.now }
    ensures { result ≡ lam_of memory.now }
{
    let l = l_pattern(memory);
    let first = if l == 0 { 0 } else { l.trailing_zeros() + 1 };
    LamReading {
        l,
        count: l.count_ones(),
        first,
    }
}
