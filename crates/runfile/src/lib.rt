// Reads a line of a run file or of a crate file, given without its LF. Any bytes of any length get an answer: what the line says, or
// the refusal that it is garbled. Each call says twice what it answers: by the reader's definition, which callers rewrite with, and by
// the text of a step or of a module, which is what the paper says.
#![tactic(auto)]

mod bare;
mod commands;
mod fields;
mod modules;
mod transfers;

ghost use Rattle.std.specs.Prelude.{◌≡◌};
ghost use Rattle.runfile.specs.Lines.{Reads, ReadsModule};
ghost use Rattle.runfile.specs.Parts.{reading};
ghost use Rattle.runfile.specs.Read.{read_line, read_module};

use bare::read_bare;
use commands::{read_front, read_inhibit, read_naf};
use kinds::Module;
use modules::read_fields;
use step::{Refusal, Step};
use transfers::{read_put, read_repeat, read_scan, read_stop, read_within};

// The step of a line. The letter after `op=` leaves one form to try, and two for `s`.
fn read_form(line: &[u8]) -> Option<Step>
    ensures { reading result ≡ read_line line.now }
{
    match line.get(3)? {
        b'n' => read_naf(line),
        b'f' => read_front(line),
        b'z' => read_bare(line, b"op=z", Step::Z),
        b'c' => read_bare(line, b"op=c", Step::C),
        b'i' => read_inhibit(line),
        b'l' => read_bare(line, b"op=lam", Step::LookAtMe),
        b's' => read_scan(line).or(read_stop(line)),
        b'r' => read_repeat(line),
        b'p' => read_put(line),
        b'w' => read_within(line),
        _ => None,
    }
}

// The step of a line of a run file.
pub fn read_line(line: &[u8]) -> Result<Step, Refusal>
    ensures value { result ≡ read_line line.now }
    ensures meaning { Reads line.now result }
{
    read_form(line).ok_or(Refusal::Garbled)
}

// The module of a line of a crate file. Whether it may stand there is judged apart.
pub fn read_module(line: &[u8]) -> Result<Module, Refusal>
    ensures value { result ≡ read_module line.now }
    ensures meaning { ReadsModule line.now result }
{
    read_fields(line).ok_or(Refusal::Garbled)
}
