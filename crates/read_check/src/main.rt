// Reads each line of standard input as a line of a run file and as a line of a crate file, and writes what it is: its number, the step
// or 1, the module or 1. README.md says how the stored lines are grouped.
#![tactic(auto)]

ghost use Rattle.std.specs.Prelude.{◌≤◌, length};

use kinds::Module;
use std::io::Read;
use step::{Refusal, Step};

// The stored input fits.
const ROOM: usize = 262144;

fn show(rt: &impl Print, bytes: &[u8]) {
    let _ = rt.write_all(bytes);
}

// A key and its number, as `text` puts them into a buffer.
fn show_field(rt: &impl Print, key: &[u8], n: u32)
    requires { length key.now ≤ 20 }
{
    let mut out = [0u8; 30];
    let next = text::put_field(&mut out, 0, key, n);
    show(rt, &out[..next]);
}

fn show_refusal(rt: &impl Print, refusal: Refusal) {
    match refusal {
        Refusal::Garbled => {
            show(rt, b"1");
        }
        _ => {
            show(rt, b"another refusal");
        }
    }
}

fn show_head(rt: &impl Print, key: &[u8], n: u32, a: u32, f: u32)
    requires { length key.now ≤ 20 }
{
    show_field(rt, key, n);
    show_field(rt, b" a=", a);
    show_field(rt, b" f=", f);
}

fn show_step(rt: &impl Print, step: Step) {
    match step {
        Step::Command { n, a, f, w } => {
            show_head(rt, b"Command n=", n, a, f);
            show_field(rt, b" w=", w);
        }
        Step::Front { n, a, v } => {
            show_field(rt, b"Front n=", n);
            show_field(rt, b" a=", a);
            show_field(rt, b" v=", v);
        }
        Step::Z => {
            show(rt, b"Z");
        }
        Step::C => {
            show(rt, b"C");
        }
        Step::Inhibit { v } => {
            show_field(rt, b"Inhibit v=", v);
        }
        Step::LookAtMe => {
            show(rt, b"LookAtMe");
        }
        Step::Scan { n, a, f, to, limit } => {
            show_head(rt, b"Scan n=", n, a, f);
            show_field(rt, b" to=", to);
            show_field(rt, b" limit=", limit);
        }
        Step::Repeat {
            n,
            a,
            f,
            limit,
            tries,
        } => {
            show_head(rt, b"Repeat n=", n, a, f);
            show_field(rt, b" limit=", limit);
            show_field(rt, b" tries=", tries);
        }
        Step::Stop { n, a, f, limit } => {
            show_head(rt, b"Stop n=", n, a, f);
            show_field(rt, b" limit=", limit);
        }
        Step::Put { n, a, to, limit, w } => {
            show_field(rt, b"Put n=", n);
            show_field(rt, b" a=", a);
            show_field(rt, b" to=", to);
            show_field(rt, b" limit=", limit);
            show_field(rt, b" w=", w);
        }
        // no line says this
        Step::PutLent { n, a, to, limit } => {
            show(rt, b"PutLent");
        }
        Step::Processor(short) => {
            show(rt, b"Processor");
        }
        Step::Within { n, to, lo, hi } => {
            show_field(rt, b"Within n=", n);
            show_field(rt, b" to=", to);
            show_field(rt, b" lo=", lo);
            show_field(rt, b" hi=", hi);
        }
    }
}

fn show_reading(rt: &impl Print, reading: Result<Step, Refusal>) {
    match reading {
        Ok(step) => {
            show_step(rt, step);
        }
        Err(refusal) => {
            show_refusal(rt, refusal);
        }
    }
}

fn show_module(rt: &impl Print, module: Module) {
    show_field(rt, b"Module n=", module.n);
    show_field(rt, b" kind=", module.kind);
    show_field(rt, b" r=", module.r);
    show_field(rt, b" wide=", module.wide);
}

fn show_module_line(rt: &impl Print, line: Result<Module, Refusal>) {
    match line {
        Ok(module) => {
            show_module(rt, module);
        }
        Err(refusal) => {
            show_refusal(rt, refusal);
        }
    }
}

fn show_line(rt: &impl Print, k: usize, line: &[u8]) {
    let _ = rt.print(k as u64);
    show(rt, b": ");
    show_reading(rt, runfile::read_line(line));
    show(rt, b", ");
    show_module_line(rt, runfile::read_module(line));
    show(rt, b"\n");
}

// LF ends a line, and the last may lack it.
fn show_lines(rt: &impl Print, input: &[u8]) {
    for (k, line) in input.split_inclusive(|b| *b == b'\n').enumerate() {
        show_line(rt, k + 1, line.strip_suffix(b"\n").unwrap_or(line));
    }
}

// Reads until the buffer is full, the input ends or a read fails, and answers how many bytes it put at the start of the buffer.
fn read_full(input: &mut impl Read, buf: &mut [u8]) -> usize
    ensures { result ≤ length buf.new }
{
    let mut done = 0;
    // A `while`: a read gives as many bytes as there are.
    while done < buf.len() {
        let n = match input.read(&mut buf[done..]) {
            Ok(n) => n,
            Err(_) => 0,
        };
        if n == 0 {
            return done;
        }
        done += n;
    }
    done
}

fn main(rt: HostRuntime) {
    let mut input = [0u8; ROOM];
    let count = read_full(&mut rt.reader(), &mut input);
    show_lines(&rt, &input[..count]);
}
