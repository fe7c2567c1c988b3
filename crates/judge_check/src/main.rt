// Judges steps and crate lines at the edges of each field, and with several faults at once, where the leftmost counts.
// Writes a line for each: 0 where nothing is wrong, else the number of the refusal.
#![tactic(auto)]

use kinds::Module;
use step::{Refusal, Short, Step};

// The longest buffer that is lent here, one word over the highest limit.
const ROOM: usize = 513;

// ---- what is judged

// Commands: n, a, f, w.
const COMMANDS: [[u32; 4]; 11] = [
    [0, 0, 0, 0],
    [1, 0, 0, 0],
    [23, 15, 31, 16777215],
    [25, 0, 0, 0],
    [23, 16, 0, 0],
    [1, 15, 32, 0],
    [1, 0, 31, 16777216],
    // one fault fewer on the left each time
    [25, 16, 32, 16777216],
    [1, 16, 32, 16777216],
    [1, 15, 32, 16777216],
    [99999999, 0, 0, 0],
];

// Front events: n, a, v.
const FRONTS: [[u32; 3]; 5] = [
    [0, 16, 16777216],
    [24, 15, 0],
    [23, 16, 16777216],
    [1, 15, 16777216],
    [1, 0, 16777215],
];

// Scans: the words lent, then n, a, f, to, limit.
const SCANS: [[u32; 6]; 20] = [
    // limit against what is lent
    [8, 3, 0, 0, 5, 8],
    [7, 3, 0, 0, 5, 8],
    [0, 3, 0, 0, 5, 8],
    [0, 3, 0, 0, 5, 0],
    [512, 1, 15, 3, 23, 512],
    [511, 1, 15, 3, 23, 512],
    [513, 1, 15, 3, 23, 513],
    // `to` against N and the last station
    [8, 5, 0, 2, 4, 8],
    [8, 5, 0, 2, 5, 8],
    [8, 5, 0, 2, 24, 8],
    [1, 23, 0, 0, 23, 1],
    // functions
    [8, 5, 0, 1, 5, 8],
    [8, 5, 0, 4, 5, 8],
    // one fault fewer on the left each time
    [0, 0, 16, 1, 24, 513],
    [0, 24, 16, 1, 24, 513],
    [0, 5, 16, 1, 4, 513],
    [0, 5, 15, 1, 4, 513],
    [0, 5, 15, 3, 4, 513],
    [0, 5, 15, 3, 23, 513],
    [0, 5, 15, 3, 23, 512],
];

// Repeats: the words lent, then n, a, f, limit, tries.
const REPEATS: [[u32; 6]; 11] = [
    [1, 1, 0, 0, 1, 1],
    [512, 23, 15, 2, 512, 4096],
    [512, 23, 15, 2, 512, 4097],
    [513, 23, 15, 2, 513, 4096],
    [512, 23, 15, 2, 512, 0],
    [4, 1, 0, 3, 4, 513],
    // tries before the buffer
    [0, 1, 0, 3, 1, 0],
    [0, 1, 0, 3, 1, 1],
    [4, 1, 0, 16, 0, 0],
    [4, 1, 16, 16, 0, 0],
    [4, 24, 16, 16, 0, 0],
];

// Stops: the words lent, then n, a, f, limit.
const STOPS: [[u32; 5]; 9] = [
    [4, 1, 0, 2, 4],
    [3, 1, 0, 2, 4],
    [513, 23, 15, 3, 512],
    // one fault fewer on the left each time
    [0, 0, 16, 31, 513],
    [0, 1, 16, 31, 513],
    [0, 1, 0, 31, 513],
    [0, 1, 0, 2, 513],
    [0, 1, 0, 2, 512],
    [0, 1, 0, 2, 0],
];

// Crate lines of modules one station wide, in a station that is not covered: the station of the line before, then n, kind, r.
const MODULES: [[u32; 4]; 20] = [
    [0, 1, 1, 1],
    [0, 0, 1, 1],
    [0, 24, 1, 1],
    [22, 23, 5, 16],
    [23, 23, 1, 1],
    [9, 8, 1, 1],
    // one fault fewer each time: the station, the order, the module
    [9, 0, 0, 0],
    [9, 24, 0, 0],
    [9, 9, 0, 0],
    [9, 10, 0, 0],
    [9, 10, 0, 1],
    [9, 10, 5, 1],
    [9, 10, 6, 1],
    [9, 10, 1, 0],
    [9, 10, 2, 16],
    [9, 10, 3, 17],
    [9, 10, 4, 0],
    [9, 10, 4, 1],
    [9, 10, 4, 2],
    [9, 10, 4, 16],
];

// Puts: n, a, to, limit, w.
const PUTS: [[u32; 5]; 10] = [
    [1, 0, 23, 512, 16777215],
    [0, 16, 24, 513, 16777216],
    [24, 16, 0, 0, 16777216],
    [5, 16, 4, 513, 16777216],
    [5, 15, 4, 513, 16777216],
    [5, 15, 24, 513, 16777216],
    [5, 15, 23, 513, 16777216],
    [5, 15, 23, 0, 16777216],
    [5, 15, 23, 512, 16777216],
    [5, 15, 23, 512, 16777215],
];

// Puts of lent words, zeros but for the word w at one place: the words lent, that place, w, then n, a, to, limit.
const LENT_PUTS: [[u32; 7]; 12] = [
    // a bad word past the limit, within it, and fewer words than the limit
    [4, 3, 4294967295, 5, 0, 5, 3],
    [4, 3, 4294967295, 5, 0, 5, 4],
    [2, 0, 4294967295, 5, 0, 5, 3],
    [0, 0, 0, 5, 0, 5, 0],
    [512, 511, 16777216, 1, 15, 23, 512],
    [513, 512, 16777216, 1, 15, 23, 512],
    [512, 0, 16777215, 1, 15, 23, 512],
    [0, 0, 0, 0, 16, 24, 513],
    [0, 0, 0, 5, 16, 4, 513],
    [0, 0, 0, 5, 15, 4, 513],
    [0, 0, 0, 5, 15, 23, 513],
    [0, 0, 0, 5, 15, 23, 1],
];

// Modules by kind and r: each is judged with the widths 0 to 3, in station 5 after a line for 4.
const WIDTHS: [[u32; 2]; 8] = [
    [1, 16],
    [2, 16],
    [3, 16],
    [4, 1],
    [5, 16],
    // an empty station, a kind past the table, an r that its kind has not: no width mends them
    [0, 0],
    [6, 1],
    [4, 2],
];

// Crate lines: the station of the line before, word 7 of the line's own, then n, kind, r, wide.
const CRATE_LINES: [[u32; 6]; 30] = [
    // a width past all
    [4, 0, 5, 1, 1, 4294967295],
    [21, 0, 22, 1, 1, 1],
    [21, 0, 22, 1, 1, 2],
    [22, 0, 23, 1, 1, 1],
    [22, 0, 23, 1, 1, 2],
    [22, 0, 23, 1, 1, 3],
    [0, 0, 1, 1, 1, 2],
    [0, 0, 0, 1, 1, 2],
    [23, 0, 24, 1, 1, 2],
    // the sum of station and width is past 32 bits
    [0, 0, 4294967294, 1, 1, 2],
    [0, 0, 4294967295, 1, 1, 2],
    [0, 0, 4294967295, 1, 1, 4294967295],
    [0, 0, 2, 1, 1, 4294967295],
    // right of a module two stations wide in 5: station 6 whatever its module is, station 6 after a line for 8, station 7
    [5, 1, 6, 1, 1, 1],
    [5, 1, 6, 1, 1, 2],
    [5, 1, 6, 0, 1, 1],
    [5, 1, 6, 1, 17, 1],
    [5, 1, 6, 1, 1, 0],
    [5, 1, 6, 1, 1, 3],
    [8, 1, 6, 1, 1, 1],
    [5, 0, 7, 1, 1, 1],
    // right of one in 22
    [22, 1, 23, 1, 1, 1],
    [22, 1, 23, 1, 1, 2],
    // a word 7 that no fit crate has
    [5, 4294967295, 6, 1, 1, 1],
    // one fault fewer each time: the station, the order, the cover, the module
    [9, 1, 0, 0, 0, 3],
    [9, 1, 24, 0, 0, 3],
    [9, 1, 9, 0, 0, 3],
    [9, 1, 10, 0, 0, 3],
    [9, 0, 10, 0, 0, 3],
    [9, 0, 10, 1, 1, 2],
];

// Commands to 24 and up beside those to stations.
const CONTROLLER_COMMANDS: [[u32; 4]; 33] = [
    // beside the stations a command takes 24, 26, 28 and 30
    [0, 8, 26, 0],
    [23, 8, 26, 0],
    [24, 8, 26, 0],
    [25, 8, 26, 0],
    [26, 8, 26, 0],
    [27, 8, 26, 0],
    [28, 8, 26, 0],
    [29, 8, 26, 0],
    [30, 8, 26, 0],
    [31, 8, 26, 0],
    [32, 8, 26, 0],
    // 23 bits at N30 A8 F16, which loads the Station Number Register
    [30, 8, 16, 8388607],
    [30, 8, 16, 8388608],
    [30, 8, 16, 16777215],
    [30, 8, 16, 16777216],
    // 24 at any other F, A and N
    [30, 8, 17, 8388608],
    [30, 9, 16, 8388608],
    [28, 8, 16, 8388608],
    [24, 8, 16, 16777215],
    [24, 8, 16, 16777216],
    [26, 8, 16, 16777215],
    [26, 8, 16, 16777216],
    [28, 8, 16, 16777216],
    [30, 8, 17, 16777216],
    // one fault fewer on the left each time
    [25, 16, 16, 8388608],
    [30, 16, 32, 16777216],
    [30, 16, 16, 16777216],
    [30, 8, 32, 16777216],
    [30, 8, 32, 8388608],
    [30, 8, 16, 8388608],
    [24, 16, 32, 16777216],
    [26, 15, 32, 16777216],
    [28, 15, 31, 16777216],
];

// At the trigger processor's entry a limit from 33 to 512 is 13, in the place where 7 is checked. The same columns as above.
const SHORT_SCANS: [[u32; 6]; 12] = [
    [513, 24, 0, 0, 24, 33],
    [513, 3, 16, 0, 3, 33],
    [513, 3, 0, 1, 2, 33],
    [513, 3, 0, 0, 2, 33],
    [513, 3, 0, 0, 3, 0],
    [513, 3, 0, 0, 3, 513],
    [513, 3, 0, 0, 3, 4294967295],
    [513, 3, 0, 0, 3, 33],
    [513, 3, 0, 0, 3, 512],
    [32, 3, 0, 0, 3, 32],
    [31, 3, 0, 0, 3, 32],
    [0, 3, 0, 0, 3, 33],
];

const SHORT_REPEATS: [[u32; 6]; 6] = [
    [513, 3, 0, 0, 33, 0],
    [513, 3, 0, 0, 32, 0],
    [513, 3, 0, 0, 32, 4097],
    [513, 3, 0, 0, 513, 0],
    [32, 3, 0, 0, 32, 4096],
    [31, 3, 0, 0, 32, 4096],
];

const SHORT_STOPS: [[u32; 5]; 4] = [
    [33, 3, 0, 0, 33],
    [32, 3, 0, 0, 32],
    [0, 3, 0, 0, 0],
    [0, 3, 0, 1, 33],
];

// Listings of the registers inside a window, which have 2, 6, 5 for lo, 5 for hi, 14, and 8 for fewer than sixteen words a station: the words lent, then n, to, lo, hi.
const WINDOWS: [[u32; 5]; 20] = [
    [513, 24, 2, 9, 1],
    [513, 3, 2, 16777216, 0],
    [513, 3, 24, 16777216, 0],
    [513, 3, 7, 16777216, 0],
    [513, 3, 7, 9, 16777216],
    [513, 3, 7, 2, 1],
    [0, 3, 7, 2, 1],
    [79, 3, 7, 1, 1],
    [80, 3, 7, 1, 1],
    [513, 0, 24, 2, 1],
    [513, 26, 26, 0, 0],
    [513, 28, 28, 0, 0],
    [513, 30, 30, 0, 0],
    [0, 4294967295, 0, 0, 0],
    [0, 1, 4294967295, 2, 1],
    [0, 3, 7, 16777215, 16777214],
    [16, 23, 23, 16777215, 16777215],
    [15, 23, 23, 0, 0],
    [367, 1, 23, 0, 16777215],
    [368, 1, 23, 0, 16777215],
];

// ---- the judging

fn show(rt: &impl Print, verdict: Result<(), Refusal>) {
    let number = match verdict {
        Ok(()) => 0,
        Err(q) => step::refusal_number(q),
    };
    let _ = println!(rt; "{number}");
}

// The verdict on a step that is lent so many words, zeros but for the word w at one place.
fn lend_word(rt: &impl Print, lent: u32, at: u32, w: u32, step: Step) {
    let mut words = [0u32; ROOM];
    if let Some(word) = words.get_mut(at as usize) {
        *word = w;
    }
    if let Some(part) = words.get(..lent as usize) {
        show(rt, step::judge(step, part));
    }
}

// The verdict on a step that is lent so many zeros.
fn lend(rt: &impl Print, lent: u32, step: Step) {
    lend_word(rt, lent, 0, 0, step);
}

fn commands(rt: &impl Print, rows: &[[u32; 4]]) {
    for &[n, a, f, w] in rows {
        lend(rt, 0, Step::Command { n, a, f, w });
    }
}

fn fronts(rt: &impl Print, rows: &[[u32; 3]]) {
    for &[n, a, v] in rows {
        lend(rt, 0, Step::Front { n, a, v });
    }
}

fn controls(rt: &impl Print) {
    lend(rt, 0, Step::Z);
    lend(rt, 0, Step::C);
    lend(rt, 0, Step::LookAtMe);
    for v in 0..3 {
        lend(rt, 0, Step::Inhibit { v });
    }
}

fn scans(rt: &impl Print, rows: &[[u32; 6]]) {
    for &[lent, n, a, f, to, limit] in rows {
        lend(rt, lent, Step::Scan { n, a, f, to, limit });
    }
}

fn repeats(rt: &impl Print, rows: &[[u32; 6]]) {
    for &[lent, n, a, f, limit, tries] in rows {
        lend(
            rt,
            lent,
            Step::Repeat {
                n,
                a,
                f,
                limit,
                tries,
            },
        );
    }
}

fn stops(rt: &impl Print, rows: &[[u32; 5]]) {
    for &[lent, n, a, f, limit] in rows {
        lend(rt, lent, Step::Stop { n, a, f, limit });
    }
}

fn short_scans(rt: &impl Print, rows: &[[u32; 6]]) {
    for &[lent, n, a, f, to, limit] in rows {
        lend(
            rt,
            lent,
            Step::Processor(Short::ShortScan { n, a, f, to, limit }),
        );
    }
}

fn short_repeats(rt: &impl Print, rows: &[[u32; 6]]) {
    for &[lent, n, a, f, limit, tries] in rows {
        lend(
            rt,
            lent,
            Step::Processor(Short::ShortRepeat {
                n,
                a,
                f,
                limit,
                tries,
            }),
        );
    }
}

fn short_stops(rt: &impl Print, rows: &[[u32; 5]]) {
    for &[lent, n, a, f, limit] in rows {
        lend(
            rt,
            lent,
            Step::Processor(Short::ShortStop { n, a, f, limit }),
        );
    }
}

fn puts(rt: &impl Print, rows: &[[u32; 5]]) {
    for &[n, a, to, limit, w] in rows {
        lend(rt, 0, Step::Put { n, a, to, limit, w });
    }
}

fn lent_puts(rt: &impl Print, rows: &[[u32; 7]]) {
    for &[lent, at, w, n, a, to, limit] in rows {
        lend_word(rt, lent, at, w, Step::PutLent { n, a, to, limit });
    }
}

fn windows(rt: &impl Print, rows: &[[u32; 5]]) {
    for &[lent, n, to, lo, hi] in rows {
        lend(rt, lent, Step::Within { n, to, lo, hi });
    }
}

fn crate_lines(rt: &impl Print, rows: &[[u32; 6]]) {
    for &[previous, covered, n, kind, r, wide] in rows {
        show(
            rt,
            step::judge_module(previous, covered, Module { n, kind, r, wide }),
        );
    }
}

fn modules(rt: &impl Print, rows: &[[u32; 4]]) {
    for &[previous, n, kind, r] in rows {
        crate_lines(rt, &[[previous, 0, n, kind, r, 1]]);
    }
}

fn widths(rt: &impl Print, rows: &[[u32; 2]]) {
    for &[kind, r] in rows {
        for wide in 0..4 {
            crate_lines(rt, &[[4, 0, 5, kind, r, wide]]);
        }
    }
}

// All but a command is refused with 2 at every N above 23.
fn no_station(rt: &impl Print, n: u32) {
    fronts(rt, &[[n, 0, 0]]);
    scans(rt, &[[1, n, 0, 0, n, 1]]);
    repeats(rt, &[[1, n, 0, 0, 1, 1]]);
    stops(rt, &[[1, n, 0, 0, 1]]);
    puts(rt, &[[n, 0, n, 1, 0]]);
    lent_puts(rt, &[[1, 0, 0, n, 0, n, 1]]);
    modules(rt, &[[0, n, 1, 1]]);
}

fn main(rt: HostRuntime) {
    // the two that no field decides
    show(&rt, Err(Refusal::Garbled));
    show(&rt, Err(Refusal::UnfitCrate));
    commands(&rt, &COMMANDS);
    fronts(&rt, &FRONTS);
    controls(&rt);
    scans(&rt, &SCANS);
    repeats(&rt, &REPEATS);
    stops(&rt, &STOPS);
    modules(&rt, &MODULES);
    puts(&rt, &PUTS);
    lent_puts(&rt, &LENT_PUTS);
    widths(&rt, &WIDTHS);
    crate_lines(&rt, &CRATE_LINES);
    commands(&rt, &CONTROLLER_COMMANDS);
    for n in [24, 26, 28, 30] {
        no_station(&rt, n);
    }
    short_scans(&rt, &SHORT_SCANS);
    short_repeats(&rt, &SHORT_REPEATS);
    short_stops(&rt, &SHORT_STOPS);
    short_scans(&rt, &[[1, 3, 0, 0, 3, 1]]);
    // such limits at the general entry
    scans(&rt, &[[33, 3, 0, 0, 3, 33], [512, 3, 0, 0, 3, 512]]);
    repeats(&rt, &[[512, 3, 0, 0, 512, 1]]);
    stops(&rt, &[[512, 3, 0, 0, 512]]);
    windows(&rt, &WINDOWS);
}
