// Whether a crate memory is fit: any slice, of any length and contents, is judged.
ghost use Rattle.std.specs.Prelude.{◌≡◌, length, ◌<◌};
ghost use Rattle.kinds.specs.Cases.{every};
ghost use Rattle.dataway.specs.Crate.{is_fit_rest, is_fit_station, is_fit_cover, is_fit_crate};

use crate::{INHIBIT, STATION_NUMBERS, block};
use blocks::{BLOCK_WORDS, MEMORY_WORDS, STATIONS};
use panel::fitness::is_fit_block;
use station::block::{COVERED, WIDTH};

// Block 0 after Inhibit and the Station Number Register.
fn is_rest_zero(memory: &[u32]) -> bool
    requires { length memory.now ≡ 768 }
    ensures { result ≡ every 30 (is_fit_rest memory.now) }
{
    memory[2..BLOCK_WORDS].iter().all(|word| *word == 0)
}

// The block of station 1 + i.
fn is_fit_station(memory: &[u32], i: usize) -> bool
    requires memory_len { length memory.now ≡ 768 }
    requires i_bound { i < 23 }
    ensures { result ≡ is_fit_station memory.now i }
{
    is_fit_block(&memory[block(1 + i)])
}

// The blocks of all stations.
fn are_stations_fit(memory: &[u32]) -> bool
    requires { length memory.now ≡ 768 }
    ensures { result ≡ every 23 (is_fit_station memory.now) }
{
    (0..STATIONS).all(|i| is_fit_station(memory, i))
}

// The cover of station 1 + i: block i is its left neighbour.
#[tactic(auto, unfolding(crate::specs::Crate::is_fit_cover))]
fn is_fit_cover(memory: &[u32], i: usize) -> bool
    requires memory_len { length memory.now ≡ 768 }
    requires i_bound { i < 23 }
    ensures { result ≡ is_fit_cover memory.now i }
{
    let left = BLOCK_WORDS * i;
    let own = left + BLOCK_WORDS;
    memory[own + COVERED] == u32::from(memory[left + WIDTH] == 2)
}

// The covers of all stations.
fn are_covers_fit(memory: &[u32]) -> bool
    requires { length memory.now ≡ 768 }
    ensures { result ≡ every 23 (is_fit_cover memory.now) }
{
    (0..STATIONS).all(|i| is_fit_cover(memory, i))
}

// The whole memory.
#[tactic(auto, unfolding(crate::specs::Crate::is_fit_crate, crate::specs::Crate::crate_tests))]
pub fn is_fit_crate(memory: &[u32]) -> bool
    ensures { result ≡ is_fit_crate memory.now }
{
    memory.len() == MEMORY_WORDS
        && memory[INHIBIT] < 2
        && memory[STATION_NUMBERS] < 1 << STATIONS
        && is_rest_zero(memory)
        && are_stations_fit(memory)
        && are_covers_fit(memory)
        && memory[BLOCK_WORDS * STATIONS + WIDTH] < 2
}
