// Numbers and fields as text, put into a lent buffer. Each call says what all of the buffer holds after it.
#![tactic(auto)]

ghost use Rattle.std.specs.Prelude.{◌≡◌, ◌++◌, ◌+◌, ◌^◌, ◌≤◌, ◌<◌, length};
ghost use Rattle.text.specs.Digits.{digits, unpacked, zeros};
ghost use Rattle.text.specs.Paste.{pasted, Put, Behind};
ghost use Rattle.text.specs.Text.{decimal};

// Eight times the digit 0, as the bytes of one number.
const ZEROS: u64 = 0x3030_3030_3030_3030;

// How many decimal digits n takes.
fn places(n: u32) -> usize
    ensures { result ≡ length (decimal n) }
{
    // By ranges: with checked_ilog10, which reads a table of powers at each call, short lines took a fifth longer.
    match n {
        0..=9 => 1,
        10..=99 => 2,
        100..=999 => 3,
        1000..=9999 => 4,
        10000..=99999 => 5,
        100000..=999999 => 6,
        1000000..=9999999 => 7,
        10000000..=99999999 => 8,
        100000000..=999999999 => 9,
        _ => 10,
    }
}

// Puts the last k digits of n at index at, from the right.
fn spell(out: &mut [u8], at: usize, k: usize, n: u32)
    requires { at + k ≤ length out.old }
    ensures { out.new ≡ pasted out.old at (digits k n) }
{
    let mut rest = n;
    for i in (0..k).rev() {
        out[at + i] = b'0' + (rest % 10) as u8;
        rest /= 10;
    }
}

// Puts n in decimal at index at, and answers the index after it.
pub fn put_decimal(out: &mut [u8], at: usize, n: u32) -> usize
    requires { at + length (decimal n) ≤ length out.old }
    ensures { Put out.old at (decimal n) out.new result }
{
    let k = places(n);
    spell(out, at, k, n);
    at + k
}

// Puts bytes at index at, and answers the index after them.
#[tactic(auto, using(crate::proofs::Paste::bytewise))]
pub fn put_bytes(out: &mut [u8], at: usize, bytes: &[u8]) -> usize
    requires { at + length bytes.now ≤ length out.old }
    ensures { Put out.old at bytes.now out.new result }
{
    // Byte by byte, which is quicker here: copy_from_slice first asks of each text, however short, whether the two overlap.
    for (i, byte) in bytes.iter().enumerate() {
        out[at + i] = *byte;
    }
    at + bytes.len()
}

// The eight digits of n, below 10 each, as the bytes of one number, the first lowest: n is cut into two, then four, then eight parts, all parts of a cut at once.
// A product and a shift stand for the division by 100 and by 10.
fn eight_digits(n: u32) -> u64
    requires { n < 100000000 }
    ensures digits { unpacked 8 (result + zeros) ≡ digits 8 n }
    ensures bound { result < 2 ^ 60 }
{
    let two = (n / 10000) as u64 + (((n % 10000) as u64) << 32);
    let hundreds = (two * 10486) >> 20;
    let high = hundreds % 128 + (((hundreds >> 32) % 128) << 32);
    let four = high + ((two - 100 * high) << 16);
    let tens = (four * 103) >> 10;
    let tops = tens % 16
        + (((tens >> 16) % 16) << 16)
        + (((tens >> 32) % 16) << 32)
        + (((tens >> 48) % 16) << 48);
    tops + ((four - 10 * tops) << 8)
}

// Puts eight digits at index at, stored as one number.
fn put_eight(out: &mut [u8], at: usize, d: u64)
    requires { (d < 2 ^ 60) × (at + 8 ≤ length out.old) }
    ensures { out.new ≡ pasted out.old at (unpacked 8 (d + zeros)) }
{
    out[at..at + 8].copy_from_slice(&(d + ZEROS).to_le_bytes());
}

// Puts n in decimal behind a gap of so many bytes at index at, and answers the index after it. What the gap holds then is left open: eight digits are written at
// once where n has no more, and the zeros before it lie in the gap.
pub fn put_behind(out: &mut [u8], at: usize, gap: usize, n: u32) -> usize
    requires { at + gap + length (decimal n) ≤ length out.old }
    ensures { Behind out.old at gap (decimal n) out.new result }
{
    let k = places(n);
    let next = at + gap + k;
    if n < 100000000 && 8 <= gap + k {
        put_eight(out, next - 8, eight_digits(n));
        return next;
    }
    spell(out, at + gap, k, n);
    next
}

// Puts key and then n in decimal, and answers the index after them. A single digit needs no loop.
pub fn put_field(out: &mut [u8], at: usize, key: &[u8], n: u32) -> usize
    requires { at + length key.now + length (decimal n) ≤ length out.old }
    ensures { Put out.old at (key.now ++ decimal n) out.new result }
{
    let next = put_bytes(out, at, key);
    if n < 10 {
        out[next] = b'0' + n as u8;
        return next + 1;
    }
    put_decimal(out, next, n)
}
