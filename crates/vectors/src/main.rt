// Runs the 94 scenarios of the current folder, NN.run on the crate of NN.crate, and prints 'case=NN' before each sheet. A file that is not there is missing on
// purpose. Then runs, as `rehearse` does without arguments, run.txt on the crate of crate.txt.
#![tactic(auto)]

use std::rt::{Env, Files};

// The number of the last scenario.
const CASES: u8 = 94;

// Rehearses one file on the crate of another.
fn rehearse<R: Files + Print>(rt: &R, err: &impl Print, crate_path: &[u8], run_path: &[u8]) {
    let mut text = [0u8; 65536];
    let mut line = [0u8; 81];
    let mut memory = [0u32; 768];
    let mut out = [0u8; 65536];
    let _ = shell::rehearse(
        rt,
        err,
        crate_path,
        run_path,
        &mut text,
        &mut line,
        &mut memory,
        &mut out,
    );
}

// Runs scenario k.
fn scenario<R: Files + Print>(rt: &R, err: &impl Print, k: u8) {
    let tens = b'0' + k / 10 % 10;
    let ones = b'0' + k % 10;
    let crate_path = [tens, ones, b'.', b'c', b'r', b'a', b't', b'e'];
    let run_path = [tens, ones, b'.', b'r', b'u', b'n'];
    let head = [b'c', b'a', b's', b'e', b'=', tens, ones, b'\n'];
    let _ = rt.write_all(&head);
    rehearse(rt, err, &crate_path, &run_path);
}

// Runs the files that a program is started on without arguments.
fn without_arguments<R: Files + Env + Print>(rt: &R, err: &impl Print) {
    let _ = rt.write_all(b"case=usual\n");
    let mut crate_path = [0u8; 4096];
    let mut run_path = [0u8; 4096];
    if let Some(files) = shell::files_named(
        rt,
        err,
        b"crate.txt",
        b"run.txt",
        b"usage: vectors    takes no argument\n",
        &mut crate_path,
        &mut run_path,
    ) {
        rehearse(
            rt,
            err,
            &crate_path[..files.first],
            &run_path[..files.second],
        );
    }
}

fn main(rt: HostRuntime) {
    let err = rt.stderr();
    for k in 1..=CASES {
        scenario(&rt, &err, k);
    }
    without_arguments(&rt, &err);
}
