// Opens and reads a run file, and stores its steps as a list of words. What is not read whole is no list.
ghost use Rattle.std.specs.Prelude.{◌≡◌, length, IfSome};
ghost use Rattle.listfile.specs.Listing.{state_of, Held};
ghost use Rattle.shell.specs.Handed.{Listed, Stored};

use crate::{open, read_some, say};
use lines::has_past;
use listfile::ListReader;
use std::io::Read;
use std::rt::Files;

// Reads and takes an open file to its end, in turns as in `take_open`, and has nothing where some of it is lost.
fn take_parts(
    err: &impl Print,
    file: &mut impl Read,
    path: &[u8],
    text: &mut [u8],
    s: ListReader,
    line: &mut [u8],
    words: &mut [u32],
) -> Option<ListReader>
    requires held { Held s line.old words.old }
    requires listed { Listed (state_of s line.old words.old) }
    ensures stays_held { IfSome result (λ r. Held r line.new words.new) }
    ensures stays_listed { IfSome result (λ r. Listed (state_of r line.new words.new)) }
{
    let mut r = s;
    for _ in 0..u64::MAX {
        let n = read_some(file, err, path, text, b"; no verdict")?;
        if n == 0 {
            return Some(r);
        }
        if has_past(&text[..n], r.number) {
            say(err, path, b" has lines past 99,999; no verdict\n");
            return None;
        }
        r = listfile::take_text(&text[..n], r, line, words);
    }
    None
}

// Stores the steps of the run file at path in the first words, and answers how many they are. A file that is missing, cannot be read, or has lines past the
// last that is read, is no list, and that is said.
pub fn take_list<R: Files>(
    rt: &R,
    err: &impl Print,
    path: &[u8],
    text: &mut [u8],
    line: &mut [u8],
    words: &mut [u32],
) -> Option<usize>
    requires { (length line.old ≡ 81) × (length words.old ≡ 599994) }
    ensures { IfSome result (λ n. Stored n words.new) }
{
    let start = ListReader { fill: 0, number: 0 };
    let mut file = open(rt, err, path, b" is missing; no verdict\n", b"; no verdict")?;
    let read = take_parts(err, &mut file, path, text, start, line, words);
    drop(file);
    let end = listfile::finish(read?, line, words);
    Some(end.number)
}
