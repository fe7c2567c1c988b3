// A sheet of up to 64 windows over the same stations, in one pass: a flag word for each subaddress, bit i for window i.
ghost use Rattle.std.specs.Prelude.{◌≡◌, ◌++◌, length, drop, ℕ, ◌≤◌, ◌<◌, Ok};
ghost use Rattle.word24.specs.Word.{as_bit, bits_of};
ghost use Rattle.step.specs.Verdict.{within, places_of};
ghost use Rattle.dataway.specs.Crate.{FitCrate};
ghost use Rattle.windows.specs.Flags.{low_of, high_of, windows_in, flags_of, read_of};
ghost use Rattle.windows.specs.Sheets.{windows_then, is_sheet, sheet_verdict, sheet_of, EachWindow};

use crate::register;
use step::Refusal;
use step::fields::{SUBADDRESSES, ensure, places, range, room_for_places, station, window, within};

// The most windows of a sheet: a flag word has a bit for each.
const MOST_WINDOWS: usize = 64;

// 1 where v lies from lo to hi, else 0.
fn flag(lo: u32, hi: u32, v: u32) -> u64
    ensures { result ≡ as_bit (within lo v hi) }
{
    within(lo, v, hi) as u64
}

// The flags of a value: bit i is 1 where window i of the sheet holds it.
fn flag_word(sheet: &[u32], v: u32) -> u64
    requires { windows_in sheet.now ≤ 64 }
    ensures { result ≡ bits_of (λ i. within (low_of sheet.now i) v (high_of sheet.now i)) (windows_in sheet.now) }
{
    let mut flags: u64 = 0;
    for (i, pair) in sheet.chunks_exact(2).enumerate() {
        flags |= flag(pair[0], pair[1], v) << i;
    }
    flags
}

// The pass over stations n to `to`: a flag word for each subaddress. Each register is read once; the answer is how many were.
fn flag_windows(memory: &[u32], sheet: &[u32], flags: &mut [u64], n: u32, to: u32) -> u32
    requires fit_crate { FitCrate memory.now }
    requires fields { (1 ≤ n) × (n ≤ to) × (to ≤ 23) × (windows_in sheet.now ≤ 64) × (places_of n to ≤ length flags.old) }
    ensures count { result ≡ read_of memory.now n to }
    ensures flags { flags.new ≡ flags_of sheet.now memory.now n to ++ drop (places_of n to) flags.old }
{
    let first = SUBADDRESSES * n;
    let mut count: u32 = 0;
    for i in 0..places(n, to) {
        match register(memory, first + i as u32) {
            Some(v) => {
                flags[i] = flag_word(sheet, v);
                count += 1;
            }
            None => flags[i] = 0,
        }
    }
    count
}

// The windows of a sheet, the first bad one deciding.
#[tactic(auto, using(crate::proofs::SheetLaws::windows_none, crate::proofs::SheetLaws::windows_first))]
fn judge_windows(sheet: &[u32]) -> Result<(), Refusal>
    ensures { result ≡ windows_then sheet.now (Ok tt) }
{
    let mut left = sheet;
    while let [lo, hi, rest @ ..] = left {
        window(*lo, *hi)?;
        left = rest;
    }
    Ok(())
}

// The words of a sheet are two for each of at most 64 windows.
fn is_sheet(words: usize) -> bool
    ensures { result ≡ is_sheet words }
{
    words / 2 <= MOST_WINDOWS && words % 2 == 0
}

// The stations, the sheet, its windows, the flag words lent.
#[tactic(auto, using(crate::proofs::SheetLaws::windows_behind), unfolding(crate::specs::Sheets::sheet_verdict))]
fn judge_sheet(n: u32, to: u32, sheet: &[u32], lent: usize) -> Result<(), Refusal>
    ensures { result ≡ sheet_verdict n to sheet.now lent }
{
    station(n)?;
    range(n, to)?;
    ensure(is_sheet(sheet.len()), Refusal::BadLength)?;
    judge_windows(sheet)?;
    room_for_places(n, to, lent)
}

// A sheet of windows over stations n to `to` of a fit crate, lent as two words a window.
pub fn flag_sheet(
    memory: &[u32],
    n: u32,
    to: u32,
    sheet: &[u32],
    flags: &mut [u64],
) -> Result<u32, Refusal>
    requires { FitCrate memory.now }
    ensures sheet { sheet_of memory.now n to sheet.now flags.old ≡ record { answer = result; flags = flags.new } }
    ensures each { (k : ℕ) → result ≡ Ok k → EachWindow memory.now n to sheet.now flags.new }
{
    judge_sheet(n, to, sheet, flags.len())?;
    Ok(flag_windows(memory, sheet, flags, n, to))
}
