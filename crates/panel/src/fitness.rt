// Whether the block of a station is fit: any slice, of any length and contents, is judged.
ghost use Rattle.std.specs.Prelude.{◌≡◌, length, ◌<◌};
ghost use Rattle.kinds.specs.Cases.{every};
ghost use Rattle.station.specs.Block.{head_of, is_used, is_fit_header, is_fit_spare, is_fit_register, is_fit_block};

use kinds::{BUFFER_MEMORY, in_table, last_head, most_covered, most_fill};
use station::block::{
    COUNT, COVERED, FILL, HEAD, KIND, MASK, REGISTERS, SPARE, STATUS, WIDTH, sources,
};
use word24::word::fits_bits;

// Words 0 to 7.
#[tactic(auto, using(crate::proofs::FitnessLaws::table_bounds), unfolding(station::specs::Block::is_fit_header, station::specs::Block::header_tests))]
fn is_fit_header(b: &[u32]) -> bool
    requires { length b.now ≡ 32 }
    ensures { result ≡ is_fit_header b.now }
{
    let kind = b[KIND];
    let s = sources(b);
    in_table(kind, b[COUNT], b[WIDTH])
        && fits_bits(b[STATUS], s)
        && fits_bits(b[MASK], s)
        && b[HEAD] <= last_head(kind)
        && b[FILL] <= most_fill(kind)
        && b[COVERED] <= most_covered(kind)
}

// Words 8 to 15.
fn are_spares_zero(b: &[u32]) -> bool
    requires { length b.now ≡ 32 }
    ensures { result ≡ every 8 (is_fit_spare b.now) }
{
    b[SPARE..REGISTERS].iter().all(|word| *word == 0)
}

// Whether register i may differ from 0.
#[tactic(auto, unfolding(station::specs::Block::is_used))]
fn is_used(b: &[u32], i: usize) -> bool
    requires block_len { length b.now ≡ 32 }
    requires head_bound { head_of b.now < 16 }
    requires i_bound { i < 16 }
    ensures { result ≡ is_used b.now i }
{
    if b[KIND] == BUFFER_MEMORY {
        let head = b[HEAD] as usize;
        (i + 16 - head) % 16 < b[FILL] as usize
    } else {
        i < b[COUNT] as usize
    }
}

// Register i.
#[tactic(auto, unfolding(station::specs::Block::is_fit_register))]
fn is_fit_register(b: &[u32], i: usize) -> bool
    requires block_len { length b.now ≡ 32 }
    requires head_bound { head_of b.now < 16 }
    requires i_bound { i < 16 }
    ensures { result ≡ is_fit_register b.now i }
{
    let word = b[REGISTERS + i];
    fits_bits(word, 24) && (is_used(b, i) || word == 0)
}

// Words 16 to 31. The arms read alike, but each is compiled with the test of its own kinds alone: so the kind is asked once, and not for each register.
fn are_registers_fit(b: &[u32]) -> bool
    requires block_len { length b.now ≡ 32 }
    requires head_bound { head_of b.now < 16 }
    ensures { result ≡ every 16 (is_fit_register b.now) }
{
    if b[KIND] == BUFFER_MEMORY {
        (0..16).all(|i| is_fit_register(b, i))
    } else {
        (0..16).all(|i| is_fit_register(b, i))
    }
}

// The whole block.
#[tactic(auto, using(crate::proofs::FitnessLaws::head_below), unfolding(station::specs::Block::is_fit_block, station::specs::Block::fit_tests))]
pub fn is_fit_block(b: &[u32]) -> bool
    ensures { result ≡ is_fit_block b.now }
{
    b.len() == 32 && is_fit_header(b) && are_spares_zero(b) && are_registers_fit(b)
}
