// The lines that are a word alone: Z, C and the Look-at-Me reading.
ghost use Rattle.std.specs.Prelude.{◌≡◌};
ghost use Rattle.runfile.specs.Parts.{reading};
ghost use Rattle.runfile.specs.Read.{bare_line};

use step::Step;

// step, if line is word.
pub fn read_bare(line: &[u8], word: &[u8], step: Step) -> Option<Step>
    ensures { reading result ≡ bare_line word.now step line.now }
{
    (line == word).then_some(step)
}
