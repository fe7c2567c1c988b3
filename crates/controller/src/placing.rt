// A module of a crate line, put into a fit crate.
ghost use Rattle.std.specs.Prelude.{◌≡◌, Ok};
ghost use Rattle.dataway.specs.Crate.{FitCrate};
ghost use Rattle.controller.specs.Placing.{Installed, place_of};

use kinds::Module;
use step::Refusal;

// Puts a module into a fit crate, if it may stand there.
pub fn place(memory: &mut [u32], previous: u32, held: Module) -> Result<(), Refusal>
    requires { FitCrate memory.old }
    ensures placed { place_of memory.old previous (Ok held) ≡ record { verdict = result; memory = memory.new } }
    ensures fit { FitCrate memory.new }
{
    let covered = dataway::covered(memory, held.n);
    step::judge_module(previous, covered, held)?;
    dataway::put_module(memory, held);
    Ok(())
}
