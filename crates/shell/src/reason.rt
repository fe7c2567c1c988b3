// Why an input or an output failed, in the system's words.
ghost use Rattle.std.specs.Prelude.{◌≤◌, length};

use std::fmt::Write;
use std::{fmt, io};

// Room for the words of any error.
const ROOM: usize = 256;

// Words that are put together; what does not fit is left out.
#[derive(Drop)]
struct Words {
    bytes: [u8; ROOM],
    end: usize,
    ghost end_within: { end ≤ 256 },
}

impl fmt::Write for Words {
    fn write_str(&mut self, s: &str) -> fmt::Result {
        let n = s.len().min(ROOM - self.end);
        let end = self.end + n;
        self.bytes[self.end..end].copy_from_slice(&s.as_bytes()[..n]);
        self.end = end;
        Ok(())
    }
}

// Where the system's own words end: before the number that `std` adds to them.
fn words_end(words: &[u8]) -> usize
    ensures { result ≤ length words.now }
{
    (0..words.len())
        .find(|i| words[*i..].starts_with(b" (os error "))
        .unwrap_or(words.len())
}

// Says what comes of an error, and why it came.
pub(crate) fn say_reason(err: &impl Print, so: &[u8], why: &io::Error) {
    let mut words = Words {
        bytes: [0; ROOM],
        end: 0,
    };
    let _ = write!(words, "{why}");
    let text = &words.bytes[..words.end];
    let end = words_end(text);
    crate::say(err, so, b": ");
    crate::say(err, &text[..end], b"\n");
}
