// Bytes cut into lines: where the next line ends, and the first bytes of a line kept in a buffer. What is done with a line is its reader's: each reader has its own
// loop over these, since the two leave different things of a part.
#![tactic(auto)]

ghost use Rattle.std.specs.Prelude.{◌≡◌, [], ◌++◌, true, cond, ◌+◌, ◌-◌, ◌≤◌, ◌<◌, ltb, length, take, drop};
ghost use Rattle.lines.specs.Lines.{cut, has_lf, NextLf};

// Lines of a file that are read.
pub const LINES: u32 = 99999;

// Bytes of a line that are kept.
pub const LINE_BYTES: usize = 81;

// The bytes have an LF. All of them are looked at, also past the first, so that the compiler looks at many at once.
fn has_lf(bytes: &[u8]) -> bool
    ensures { result ≡ has_lf bytes.now }
{
    let mut found = false;
    for byte in bytes {
        found |= *byte == b'\n';
    }
    found
}

// The index of the n bytes of text from index from on where they have an LF, else of those after them.
fn half(text: &[u8], from: usize, n: usize) -> usize
    requires { from + n ≤ length text.now }
    ensures bound { result ≤ from + n }
    ensures value { result ≡ cond (has_lf (take n (drop from text.now))) from (from + n) }
{
    if has_lf(&text[from..from + n]) {
        from
    } else {
        from + n
    }
}

// The index of the first LF among the sixteen bytes of text from index from on, which have one: by halves.
fn first_lf(text: &[u8], from: usize) -> usize
    requires from_bound { from + 16 ≤ length text.now }
    requires has_lf { has_lf (take 16 (drop from text.now)) ≡ true }
    ensures { (result < from + 16) × NextLf text.now from result }
{
    let eight = half(text, from, 8);
    let four = half(text, eight, 4);
    let two = half(text, four, 2);
    half(text, two, 1)
}

// The index of the next LF of text from index from on, or the length of text where there is none.
pub fn find_lf(text: &[u8], from: usize) -> usize
    requires { from ≤ length text.now }
    ensures { NextLf text.now from result }
{
    let mut i = from;
    // By index and not by chunks_exact: the halves and the last bytes are looked at from i on.
    while text.len() - i >= 16 {
        if has_lf(&text[i..i + 16]) {
            return first_lf(text, i);
        }
        i += 16;
    }
    match text[i..].iter().position(|byte| *byte == b'\n') {
        Some(k) => i + k,
        None => text.len(),
    }
}

// The text has more than so many lines.
fn more_lines(text: &[u8], many: usize) -> bool
    ensures { result ≡ ltb many (length (cut [] text.now)) }
{
    let mut i = 0;
    for _ in 0..many {
        let e = find_lf(text, i);
        if e == text.len() {
            return false;
        }
        i = e + 1;
    }
    i < text.len()
}

// The text, before which so many lines of its file ended, has lines past the last that is read.
pub fn has_past(text: &[u8], number: usize) -> bool
    ensures { result ≡ ltb (99999 - number) (length (cut [] text.now)) }
{
    more_lines(text, (LINES as usize).saturating_sub(number))
}

// Keeps bytes of a line after the first `fill`, as many as the line buffer takes, and answers how many it holds then.
pub fn keep(line: &mut [u8], fill: usize, span: &[u8]) -> usize
    requires { (fill ≤ 81) × (length line.old ≡ 81) }
    ensures bound { result ≤ 81 }
    ensures line { take result line.new ≡ take 81 (take fill line.old ++ span.now) }
{
    let n = span.len().min(LINE_BYTES - fill);
    text::put_bytes(line, fill, &span[..n])
}
