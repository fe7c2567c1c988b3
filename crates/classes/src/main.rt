// Prints the table of acceptance classes: a line `kind= f= class=` for each kind from 0 to 5 and each function from 0 to 31. `stdout` was worked out by hand (table.md).
#![tactic(auto)]

ghost use Rattle.std.specs.Prelude.{◌+◌, ◌≤◌, ◌<◌, length};
ghost use Rattle.text.specs.Paste.{Put};
ghost use Rattle.classes.specs.Table.{line_of, kind_text, table_text};

use text::{put_bytes, put_field};

const KINDS: u32 = 6;

const FUNCTIONS: u32 = 32;

// Puts the line of a kind at function f, at most 20 bytes, and answers the index after it.
fn put_line(out: &mut [u8], at: usize, kind: u32, f: u32) -> usize
    requires { (kind < 6) × (f < 32) × (at + 20 ≤ length out.old) }
    ensures { Put out.old at (line_of kind f) out.new result }
{
    let after_kind = put_field(out, at, b"kind=", kind);
    let after_f = put_field(out, after_kind, b" f=", f);
    let number = acceptance::class_number(acceptance::class_of(kind, f));
    let after_class = put_field(out, after_f, b" class=", number);
    put_bytes(out, after_class, b"\n")
}

// Puts the 32 lines of a kind, and answers the index after them.
fn put_kind(out: &mut [u8], at: usize, kind: u32) -> usize
    requires { (kind < 6) × (at + 640 ≤ length out.old) }
    ensures { Put out.old at (kind_text kind) out.new result }
{
    let mut next = at;
    for f in 0..FUNCTIONS {
        next = put_line(out, next, kind, f);
    }
    next
}

// Puts the whole table at the start of a buffer, and answers its length.
fn put_table(out: &mut [u8]) -> usize
    requires { 3840 ≤ length out.old }
    ensures { Put out.old 0 table_text out.new result }
{
    let mut next = 0;
    for kind in 0..KINDS {
        next = put_kind(out, next, kind);
    }
    next
}

fn main(rt: HostRuntime) {
    let err = rt.stderr();
    if shell::argument_count(&rt) > 1 {
        let _ = err.write_all(
            b"usage: classes    prints the table of acceptance classes; it takes no argument\n",
        );
        return;
    }
    let mut out = [0u8; 4096];
    let n = put_table(&mut out);
    let _ = shell::write_out(&rt, &err, &out, n, b"the table");
}
