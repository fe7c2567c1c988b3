// The common controls: Z and C at every station, and Inhibit. And the Station Number Register.
ghost use Rattle.std.specs.Prelude.{◌≡◌, ◌≤◌};
ghost use Rattle.dataway.specs.Crate.{FitCrate};
ghost use Rattle.dataway.specs.Controls.{after_z, after_c, after_i, after_snr};

use crate::{INHIBIT, STATION_NUMBERS, block};
use blocks::STATIONS;

// Z: every station, Inhibit set, and the Station Number Register emptied.
pub fn initialize(memory: &mut [u32])
    requires { FitCrate memory.old }
    ensures { memory.new ≡ after_z memory.old }
{
    for n in 1..1 + STATIONS {
        panel::control::initialize(&mut memory[block(n)]);
    }
    memory[INHIBIT] = 1;
    memory[STATION_NUMBERS] = 0;
}

// C: every station. Not inlined: among the other steps each station would cost the saving of what these hold. The loop is a function of its own, so that
// the compiler goes over it once more.
#[inline(never)]
pub fn clear(memory: &mut [u32])
    requires { FitCrate memory.old }
    ensures { memory.new ≡ after_c memory.old }
{
    clear_stations(memory);
}

// F9 at each A below r of each station.
fn clear_stations(memory: &mut [u32])
    requires { FitCrate memory.old }
    ensures { memory.new ≡ after_c memory.old }
{
    for n in 1..1 + STATIONS {
        panel::control::clear(&mut memory[block(n)]);
    }
}

// Inhibit takes v.
pub fn set_inhibit(memory: &mut [u32], v: u32)
    requires fit_crate { FitCrate memory.old }
    requires v_bound { v ≤ 1 }
    ensures { memory.new ≡ after_i memory.old v }
{
    memory[INHIBIT] = v;
}

// The Station Number Register takes w.
pub fn load_stations(memory: &mut [u32], w: u32)
    requires { FitCrate memory.old }
    ensures { memory.new ≡ after_snr memory.old w }
{
    memory[STATION_NUMBERS] = w;
}
