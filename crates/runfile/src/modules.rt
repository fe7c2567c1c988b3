// The lines of a crate file.
ghost use Rattle.std.specs.Prelude.{◌≡◌};
ghost use Rattle.runfile.specs.Parts.{reading};
ghost use Rattle.runfile.specs.Read.{read_module};

use crate::fields::field;
use kinds::Module;

// n= kind= r= wide=
pub fn read_fields(line: &[u8]) -> Option<Module>
    ensures { reading result ≡ read_module line.now }
{
    let (n, rest) = field(line, b"n=")?;
    let (kind, rest) = field(rest, b" kind=")?;
    let (r, rest) = field(rest, b" r=")?;
    let (wide, rest) = field(rest, b" wide=")?;
    rest.is_empty().then_some(Module { n, kind, r, wide })
}
