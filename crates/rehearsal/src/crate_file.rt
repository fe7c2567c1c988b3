// One line of a crate file on a lent crate.
ghost use Rattle.std.specs.Prelude.{◌≡◌};
ghost use Rattle.step.specs.Refusals.{verdict_number};
ghost use Rattle.runfile.specs.Read.{read_module};
ghost use Rattle.controller.specs.Placing.{Installed};
ghost use Rattle.rehearsal.specs.Modules.{install_of};

use controller::placing::place;
use dataway::fitness::is_fit_crate;
use step::Refusal;

// One line of a crate file, after a line for the station `previous` (0 before the first): 9, then 1, 2, 11, 12, 10, else the module is put in.
// `number` tells the verdict by its number, 0 where nothing is sent back.
pub fn crate_line(memory: &mut [u32], previous: u32, line: &[u8]) -> Result<(), Refusal>
    ensures placed { install_of memory.old previous (read_module line.now) ≡ record { verdict = result; memory = memory.new } }
    ensures number { verdict_number result ≡ verdict_number (install_of memory.old previous (read_module line.now)).verdict }
{
    if !is_fit_crate(memory) {
        return Err(Refusal::UnfitCrate);
    }
    let held = runfile::read_module(line)?;
    place(memory, previous, held)
}
