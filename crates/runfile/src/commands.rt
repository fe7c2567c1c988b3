// The lines of a command, of a front event and of Inhibit.
ghost use Rattle.std.specs.Prelude.{◌≡◌};
ghost use Rattle.runfile.specs.Parts.{reading};
ghost use Rattle.runfile.specs.Read.{naf_line, front_line, inhibit_line};

use crate::fields::{Head, field, head_of};
use step::Step;

// op=naf n= a= f= w=
pub fn read_naf(line: &[u8]) -> Option<Step>
    ensures { reading result ≡ naf_line line.now }
{
    let Head { n, a, f, rest } = head_of(line, b"op=naf n=")?;
    let (w, rest) = field(rest, b" w=")?;
    rest.is_empty().then_some(Step::Command { n, a, f, w })
}

// op=front n= a= v=
pub fn read_front(line: &[u8]) -> Option<Step>
    ensures { reading result ≡ front_line line.now }
{
    let (n, rest) = field(line, b"op=front n=")?;
    let (a, rest) = field(rest, b" a=")?;
    let (v, rest) = field(rest, b" v=")?;
    rest.is_empty().then_some(Step::Front { n, a, v })
}

// op=i v=
pub fn read_inhibit(line: &[u8]) -> Option<Step>
    ensures { reading result ≡ inhibit_line line.now }
{
    let (v, rest) = field(line, b"op=i v=")?;
    rest.is_empty().then_some(Step::Inhibit { v })
}
