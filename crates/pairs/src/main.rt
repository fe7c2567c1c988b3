// Compares the pairs of run files of the current folder, NN.regrouped with NN.run, and prints 'case=NN' before each report. A file that is not there is missing on
// purpose.
#![tactic(auto)]

ghost use Rattle.std.specs.Prelude.{◌≡◌, ◌≤◌, length};

use listfile::LIST_WORDS;
use std::rt::Files;

// The number of the last pair.
const CASES: u8 = 51;

// Compares pair k, in lent buffers.
fn compare_pair<R: Files + Print>(
    rt: &R,
    err: &impl Print,
    k: u8,
    text: &mut [u8],
    line: &mut [u8],
    first: &mut [u32],
    second: &mut [u32],
    out: &mut [u8],
)
    requires { (length line.old ≡ 81) × (length first.old ≡ 599994) × (length second.old ≡ 599994) × (4096 ≤ length out.old) }
{
    let tens = b'0' + k / 10 % 10;
    let ones = b'0' + k % 10;
    let first_path = [tens, ones, b'.', b'r', b'u', b'n'];
    let second_path = [
        tens, ones, b'.', b'r', b'e', b'g', b'r', b'o', b'u', b'p', b'e', b'd',
    ];
    let head = [b'c', b'a', b's', b'e', b'=', tens, ones, b'\n'];
    let _ = rt.write_all(&head);
    let _ = regrouping::compare_files(
        rt,
        err,
        &first_path,
        &second_path,
        text,
        line,
        first,
        second,
        out,
    );
}

// Compares every pair, in lent buffers.
fn compare_all<R: Files + Print>(
    rt: &R,
    err: &impl Print,
    text: &mut [u8],
    line: &mut [u8],
    first: &mut [u32],
    second: &mut [u32],
    out: &mut [u8],
)
    requires { (length line.old ≡ 81) × (length first.old ≡ 599994) × (length second.old ≡ 599994) × (4096 ≤ length out.old) }
{
    for k in 1..=CASES {
        compare_pair(rt, err, k, text, line, first, second, out);
    }
}

fn main(rt: HostRuntime) {
    let err = rt.stderr();
    let mut text = [0u8; 65536];
    let mut line = [0u8; 81];
    let mut first = [0u32; LIST_WORDS];
    let mut second = [0u32; LIST_WORDS];
    let mut out = [0u8; 4096];
    compare_all(
        &rt,
        &err,
        &mut text,
        &mut line,
        &mut first,
        &mut second,
        &mut out,
    );
}
