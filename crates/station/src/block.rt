// The words of a station's block, and what several functions need of it: the sources, a status bit set, the registers zeroed.
ghost use Rattle.std.specs.Prelude.{◌≡◌, length, ◌<◌};
ghost use Rattle.station.specs.Block.{sources_of, set_status_bit, zeroed_of};

use word24::word::with_bit;

// Where the words stand.
pub const KIND: usize = 0;

pub const COUNT: usize = 1;

pub const STATUS: usize = 2;

pub const MASK: usize = 3;

pub const HEAD: usize = 4;

pub const FILL: usize = 5;

pub const WIDTH: usize = 6;

pub const COVERED: usize = 7;

pub const SPARE: usize = 8;

pub const REGISTERS: usize = 16;

// How many LAM sources the module has.
#[tactic(auto, unfolding(crate::specs::Block::sources_of))]
pub fn sources(b: &[u32]) -> u32
    requires { length b.now ≡ 32 }
    ensures { result ≡ sources_of b.now }
{
    kinds::sources(b[KIND], b[COUNT])
}

// Sets status bit a.
pub fn set_status_bit(b: &mut [u32], a: u32)
    requires block_len { length b.old ≡ 32 }
    requires a_bound { a < 32 }
    ensures { b.new ≡ set_status_bit b.old a }
{
    b[STATUS] = with_bit(b[STATUS], a);
}

// Gives the module this status and mask, and zeroes its head, its fill and all its registers.
pub fn zero_module(b: &mut [u32], status: u32, mask: u32)
    requires { length b.old ≡ 32 }
    ensures { b.new ≡ zeroed_of b.old status mask }
{
    b[STATUS] = status;
    b[MASK] = mask;
    b[HEAD] = 0;
    b[FILL] = 0;
    b[REGISTERS..].fill(0);
}
