// Puts numbers, bytes and fields into a buffer of dots. Writes all of the buffer each time, so that the dots show what was left alone,
// and then the next place.
#![tactic(auto)]

ghost use Rattle.std.specs.Prelude.{◌+◌, ◌≤◌, length};

// Holds the longest number at place 4, and no byte more.
const ROOM: usize = 14;

fn show(rt: &impl Print, out: &[u8], next: usize) {
    let _ = rt.write_all(out);
    let _ = rt.write_all(b" ");
    let _ = rt.print(next as u64);
    let _ = rt.write_all(b"\n");
}

fn show_decimal(rt: &impl Print, at: usize, n: u32)
    requires { at ≤ 4 }
{
    let mut out = [b'.'; ROOM];
    let next = text::put_decimal(&mut out, at, n);
    show(rt, &out, next);
}

fn show_bytes(rt: &impl Print, at: usize, bytes: &[u8])
    requires { at + length bytes.now ≤ 14 }
{
    let mut out = [b'.'; ROOM];
    let next = text::put_bytes(&mut out, at, bytes);
    show(rt, &out, next);
}

fn show_field(rt: &impl Print, at: usize, key: &[u8], n: u32)
    requires { at + length key.now ≤ 4 }
{
    let mut out = [b'.'; ROOM];
    let next = text::put_field(&mut out, at, key, n);
    show(rt, &out, next);
}

// A number at the first place, and where a number of ten digits reaches the end.
fn show_both(rt: &impl Print, n: u32) {
    show_decimal(rt, 0, n);
    show_decimal(rt, 4, n);
}

// The least and the greatest number of each length.
const BOUNDS: [u32; 20] = [
    0, 9, 10, 99, 100, 999, 1000, 9999, 10000, 99999, 100000, 999999, 1000000, 9999999, 10000000,
    99999999, 100000000, 999999999, 1000000000, 4294967295,
];

// Others, with zeros inside and of 24, 30 and 32 bits.
const OTHERS: [u32; 5] = [1, 101, 16777215, 1020304050, 2147483648];

fn main(rt: HostRuntime) {
    for n in BOUNDS {
        show_both(&rt, n);
    }
    for n in OTHERS {
        show_both(&rt, n);
    }
    show_bytes(&rt, 0, b"");
    show_bytes(&rt, 7, b"");
    show_bytes(&rt, 14, b"");
    show_bytes(&rt, 0, b"x");
    show_bytes(&rt, 13, b"x");
    show_bytes(&rt, 5, b"op=z");
    show_bytes(&rt, 0, b"0123456789abcd");
    show_field(&rt, 0, b"", 7);
    show_field(&rt, 0, b"n=", 7);
    show_field(&rt, 2, b"n=", 23);
    show_field(&rt, 0, b" to=", 0);
    show_field(&rt, 0, b" to=", 4294967295);
}
