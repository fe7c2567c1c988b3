// Flags sheets of windows over the stations of a lent crate. cases.md says what each case shows and why its numbers are these.
#![tactic(auto)]

use step::Refusal;

// The most flag words lent: sixteen for each of 23 stations.
const FLAG_WORDS: usize = 368;

// What each of them holds before a call, so that it shows which words the call stores.
const MARK: u64 = 9;

// The highest value of a register, and the first number that is none.
const HIGHEST: u32 = 16777215;

const OVERWIDE: u32 = 16777216;

// ---- what is printed
fn show(rt: &impl Print, key: &[u8], n: u64) {
    let _ = rt.write_all(key);
    let _ = rt.print(n);
}

fn show_flags(rt: &impl Print, flags: &[u64]) {
    for (i, &flag) in flags.iter().enumerate() {
        if flag != 0 {
            show(rt, b" ", i as u64);
            show(rt, b":", flag);
        }
    }
}

// How many flag words are not what they were before the call.
fn changes(flags: &[u64]) -> usize {
    flags.iter().filter(|flag| **flag != MARK).count()
}

fn show_answer(rt: &impl Print, answer: Result<u32, Refusal>, flags: &[u64]) {
    match answer {
        Ok(count) => {
            show(rt, b" count=", count as u64);
            show_flags(rt, flags);
        }
        Err(q) => {
            show(rt, b" refused=", step::refusal_number(q) as u64);
            show(rt, b" changed=", changes(flags) as u64);
        }
    }
}

// ---- the call
// A sheet over stations n to `to`, with so many flag words lent.
fn flag(rt: &impl Print, case: u64, memory: &[u32], n: u32, to: u32, sheet: &[u32], lent: usize) {
    let mut all = [MARK; FLAG_WORDS];
    let flags = &mut all[..lent.min(FLAG_WORDS)];
    let answer = rehearsal::flag_sheet(memory, n, to, sheet, flags);
    show(rt, b"case=", case);
    show_answer(rt, answer, flags);
    let _ = rt.write_all(b"\n");
}

// ---- sheets
// Three windows from station 3 on: 5 alone, 0 alone, 2^23 and above.
fn flag_three(rt: &impl Print, case: u64, memory: &[u32], to: u32, lent: usize) {
    let sheet = [5, 5, 0, 0, 8388608, HIGHEST];
    flag(rt, case, memory, 3, to, &sheet, lent);
}

// One window, of all values.
fn flag_all(rt: &impl Print, case: u64, memory: &[u32], n: u32, to: u32, lent: usize) {
    flag(rt, case, memory, n, to, &[0, HIGHEST], lent);
}

// 63 windows of x alone and a last one from lo to hi, over station 3.
fn flag_last(rt: &impl Print, case: u64, memory: &[u32], x: u32, lo: u32, hi: u32) {
    let mut windows = [[x, x]; 64];
    windows[63] = [lo, hi];
    flag(rt, case, memory, 3, 3, windows.as_flattened(), 16);
}

// Three words, which are no sheet: a crossed window and an overwide word.
fn flag_odd(rt: &impl Print, case: u64, memory: &[u32], n: u32, to: u32) {
    flag(rt, case, memory, n, to, &[1, 0, OVERWIDE], 60);
}

// ---- the crate
// A scaler in station 3, an output register in 4, an up-down counter in 5, a buffer memory in 7.
fn put_modules(memory: &mut [u32]) {
    let modules = [
        (0, b"n=3 kind=1 r=2 wide=1"),
        (3, b"n=4 kind=2 r=2 wide=1"),
        (4, b"n=5 kind=5 r=3 wide=1"),
        (5, b"n=7 kind=4 r=1 wide=1"),
    ];
    for (previous, line) in modules {
        let _ = rehearsal::crate_line(memory, previous, line);
    }
}

// They hold 0 and 5; 5 and 0; 0, 0 and -1; a 5.
fn put_values(memory: &mut [u32]) {
    let lines: [&[u8]; 4] = [
        b"op=front n=3 a=1 v=5",
        b"op=naf n=4 a=0 f=16 w=5",
        b"op=front n=5 a=2 v=16777215",
        b"op=front n=7 a=0 v=5",
    ];
    for line in lines {
        rehearsal::run_line(memory, line, &mut []);
    }
}

// ---- the cases
// Windows 31, 32 and 33 of 34 are 5 alone.
fn middle_windows(rt: &impl Print, memory: &[u32]) {
    let mut windows = [[6, 6]; 34];
    windows[31..].fill([5, 5]);
    flag(rt, 9, memory, 3, 3, windows.as_flattened(), 16);
}

fn flagged(rt: &impl Print, memory: &[u32]) {
    flag_three(rt, 1, memory, 5, 50);
    flag_three(rt, 2, memory, 7, 80);
    flag_last(rt, 3, memory, 1, 5, 5);
    flag(rt, 4, memory, 3, 3, &[], 16);
    flag_all(rt, 5, memory, 1, 23, 368);
    flag(rt, 6, memory, 3, 5, &[], 48);
    flag(rt, 7, memory, 3, 5, &[0; 128], 48);
    let edges = [HIGHEST, HIGHEST, 16777214, 16777214, 0, 16777214];
    flag(rt, 8, memory, 5, 5, &edges, 16);
    middle_windows(rt, memory);
    for (case, n) in [(10, 4), (11, 6), (12, 7)] {
        flag_all(rt, case, memory, n, n, 16);
    }
}

// An input register two stations wide, with 7 in its last register.
fn wide(rt: &impl Print, memory: &mut [u32]) {
    let _ = rehearsal::crate_line(memory, 7, b"n=9 kind=3 r=16 wide=2");
    rehearsal::run_line(memory, b"op=front n=9 a=15 v=7", &mut []);
    flag(rt, 13, memory, 9, 10, &[7, 7, 0, 0], 33);
}

fn refused(rt: &impl Print, memory: &[u32]) {
    for (case, n, to) in [(16, 0, 24), (17, 24, 23), (18, 3, 2), (19, 3, 24)] {
        flag_odd(rt, case, memory, n, to);
    }
    // one window more than a sheet has, all of them bad
    let mut long = [[OVERWIDE; 2]; 65];
    long[0] = [1, 0];
    let sheets: [(u64, &[u32], usize); 8] = [
        (20, long.as_flattened(), 60),
        (21, &[OVERWIDE; 129], 60),
        (22, &[OVERWIDE], 60),
        (23, &[1, 0, OVERWIDE, 0], 60),
        (24, &[OVERWIDE, 0], 60),
        (25, &[0, OVERWIDE], 60),
        (26, &[0, 1, 2, 1], 0),
        (27, &[0, 1], 47),
    ];
    for (case, sheet, lent) in sheets {
        flag(rt, case, memory, 3, 5, sheet, lent);
    }
    flag_last(rt, 28, memory, 0, 2, 1);
    flag_odd(rt, 29, memory, 4294967295, 5);
    flag_odd(rt, 30, memory, 3, 4294967295);
    flag_all(rt, 31, memory, 1, 23, 367);
}

fn main(rt: HostRuntime) {
    let mut memory = [0u32; 768];
    put_modules(&mut memory);
    put_values(&mut memory);
    flagged(&rt, &memory);
    let mut wider = memory;
    wide(&rt, &mut wider);
    // word 2 of block 0 is 0 in a fit crate
    let mut unfit = memory;
    unfit[2] = 1;
    flag_odd(&rt, 14, &unfit, 0, 24);
    flag_odd(&rt, 15, &[0; 767], 0, 24);
    refused(&rt, &memory);
    flag(&rt, 32, &unfit, 3, 5, &[], 0);
    flag_three(&rt, 33, &memory, 5, 50);
}
