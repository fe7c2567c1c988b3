// The common controls at a station, Initialize Z and Clear C; and a module put in.
ghost use Rattle.std.specs.Prelude.{◌≡◌, length};
ghost use Rattle.station.specs.Block.{FitBlock};
ghost use Rattle.station.specs.Control.{initialized_of, cleared_of, module_of};

use kinds::Module;
use station::block::{COUNT, KIND, WIDTH, zero_module};

// Z: every register, status, mask, head and fill becomes 0.
pub fn initialize(b: &mut [u32])
    requires { FitBlock b.old }
    ensures { b.new ≡ initialized_of b.old }
{
    zero_module(b, 0, 0);
}

// C: F9 at each subaddress below r, where every kind accepts it.
pub fn clear(b: &mut [u32])
    requires { FitBlock b.old }
    ensures { b.new ≡ cleared_of b.old }
{
    for a in 0..b[COUNT] {
        station::group1::clear(b, a);
    }
}

// Puts a module in: its kind, its register count and its width, all else 0.
pub fn put_module(b: &mut [u32], held: Module)
    requires { length b.old ≡ 32 }
    ensures { b.new ≡ module_of held }
{
    b.fill(0);
    b[KIND] = held.kind;
    b[COUNT] = held.r;
    b[WIDTH] = held.wide;
}
