// Reads a run file, in parts of any length, and stores its steps as words, six words a step.
#![tactic(auto)]

ghost use Rattle.std.specs.Prelude.{◌≡◌, List, ℕ, ◌≤◌, ◌<◌, length};
ghost use Rattle.lines.specs.Lines.{NoLf};
ghost use Rattle.lines.specs.Cutting.{ended, feed, closed};
ghost use Rattle.listfile.specs.ListWords.{line_words};
ghost use Rattle.listfile.specs.Listing.{storing, state_of, Held};

use lines::find_lf;
use lists::STEP_WORDS;
use step::{Refusal, Step};

// Where the reading stands.
#[derive(Clone, Copy)]
pub struct ListReader {
    // Bytes of the present line in the line buffer.
    pub fill: usize,
    // Lines of the file that were read.
    pub number: usize,
}

// Lines of a file that are read, as a size.
const LINES: usize = lines::LINES as usize;

// Words of so many steps.
pub const LIST_WORDS: usize = LINES * STEP_WORDS;

// The reading of a line as six words.
fn write_reading(out: &mut [u32], reading: Result<Step, Refusal>)
    requires { length out.old ≡ 6 }
    ensures { out.new ≡ line_words reading }
{
    match reading {
        Ok(step) => lists::write_step(out, step),
        Err(_) => out.fill(0),
    }
}

// A line ends: stores its words and starts the next one.
fn end_line(s: ListReader, line: &[u8], words: &mut [u32]) -> ListReader
    requires held { Held s line.now words.old }
    requires number_bound { s.number < 99999 }
    ensures words_after { state_of result line.now words.new ≡ ended storing (state_of s line.now words.old) }
    ensures stays_held { Held result line.now words.new }
{
    let reading = runfile::read_line(&line[..s.fill]);
    let at = STEP_WORDS * s.number;
    write_reading(&mut words[at..at + STEP_WORDS], reading);
    ListReader {
        fill: 0,
        number: s.number + 1,
    }
}

// Takes bytes of a line, none of which is LF.
fn take_span(s: ListReader, span: &[u8], line: &mut [u8]) -> ListReader
    requires bounds { (s.fill ≤ 81) × (length line.old ≡ 81) × (s.number < 99999) }
    requires no_lf { NoLf span.now }
    ensures state { (w : List ℕ) → state_of result line.new w ≡ feed storing (state_of s line.old w) span.now }
    ensures counts { (result.fill ≤ 81) × (result.number ≡ s.number) }
{
    let fill = lines::keep(line, s.fill, span);
    ListReader { fill, ..s }
}

// Takes a part of a run file, as far as lines are read.
pub fn take_text(text: &[u8], s: ListReader, line: &mut [u8], words: &mut [u32]) -> ListReader
    requires { Held s line.old words.old }
    ensures words_after { state_of result line.new words.new ≡ feed storing (state_of s line.old words.old) text.now }
    ensures held { Held result line.new words.new }
{
    let mut r = s;
    let mut i = 0;
    // A `while`: a turn goes on behind the line that it took.
    while i < text.len() && r.number < LINES {
        let e = find_lf(text, i);
        r = take_span(r, &text[i..e], line);
        if e == text.len() {
            return r;
        }
        r = end_line(r, line, words);
        i = e + 1;
    }
    r
}

// The end of a run file: ends a last line that has no LF.
pub fn finish(s: ListReader, line: &[u8], words: &mut [u32]) -> ListReader
    requires { Held s line.now words.old }
    ensures words_after { state_of result line.now words.new ≡ closed storing (state_of s line.now words.old) }
    ensures held { Held result line.now words.new }
{
    if s.number >= LINES || s.fill == 0 {
        return s;
    }
    end_line(s, line, words)
}
