// The lines of the block transfers, scan, Repeat, Stop and put, and of the listing of registers inside a window.
ghost use Rattle.std.specs.Prelude.{◌≡◌};
ghost use Rattle.runfile.specs.Parts.{reading};
ghost use Rattle.runfile.specs.Read.{scan_line, repeat_line, stop_line, put_line, within_line};

use crate::fields::{Head, field, head_of};
use step::Step;

// op=scan n= a= f= to= limit=
pub fn read_scan(line: &[u8]) -> Option<Step>
    ensures { reading result ≡ scan_line line.now }
{
    let Head { n, a, f, rest } = head_of(line, b"op=scan n=")?;
    let (to, rest) = field(rest, b" to=")?;
    let (limit, rest) = field(rest, b" limit=")?;
    rest.is_empty().then_some(Step::Scan { n, a, f, to, limit })
}

// op=repeat n= a= f= limit= tries=
pub fn read_repeat(line: &[u8]) -> Option<Step>
    ensures { reading result ≡ repeat_line line.now }
{
    let Head { n, a, f, rest } = head_of(line, b"op=repeat n=")?;
    let (limit, rest) = field(rest, b" limit=")?;
    let (tries, rest) = field(rest, b" tries=")?;
    rest.is_empty().then_some(Step::Repeat {
        n,
        a,
        f,
        limit,
        tries,
    })
}

// op=stop n= a= f= limit=
pub fn read_stop(line: &[u8]) -> Option<Step>
    ensures { reading result ≡ stop_line line.now }
{
    let Head { n, a, f, rest } = head_of(line, b"op=stop n=")?;
    let (limit, rest) = field(rest, b" limit=")?;
    rest.is_empty().then_some(Step::Stop { n, a, f, limit })
}

// op=put n= a= to= limit= w=
pub fn read_put(line: &[u8]) -> Option<Step>
    ensures { reading result ≡ put_line line.now }
{
    let (n, rest) = field(line, b"op=put n=")?;
    let (a, rest) = field(rest, b" a=")?;
    let (to, rest) = field(rest, b" to=")?;
    let (limit, rest) = field(rest, b" limit=")?;
    let (w, rest) = field(rest, b" w=")?;
    rest.is_empty().then_some(Step::Put { n, a, to, limit, w })
}

// op=within n= to= lo= hi=
pub fn read_within(line: &[u8]) -> Option<Step>
    ensures { reading result ≡ within_line line.now }
{
    let (n, rest) = field(line, b"op=within n=")?;
    let (to, rest) = field(rest, b" to=")?;
    let (lo, rest) = field(rest, b" lo=")?;
    let (hi, rest) = field(rest, b" hi=")?;
    rest.is_empty().then_some(Step::Within { n, to, lo, hi })
}
