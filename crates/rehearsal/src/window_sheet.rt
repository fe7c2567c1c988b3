// A sheet of windows over the stations of a lent crate, which is read and never changed.
ghost use Rattle.std.specs.Prelude.{◌≡◌, ℕ, Ok};
ghost use Rattle.windows.specs.Sheets.{EachWindow};
ghost use Rattle.rehearsal.specs.Windows.{sheet_call};

use dataway::fitness::is_fit_crate;
use step::Refusal;

// A flag word for each subaddress of stations n to `to`, bit i for window i of the sheet, which is lent as two words a window: 9, then 2, 6, 7, then window by window
// 5, 5, 14, then 8, else how many registers were read. `each`: for every window the flagged registers are exactly those that `op=within` lists.
pub fn flag_sheet(
    memory: &[u32],
    n: u32,
    to: u32,
    sheet: &[u32],
    flags: &mut [u64],
) -> Result<u32, Refusal>
    ensures sheet { sheet_call memory.now n to sheet.now flags.old ≡ record { answer = result; flags = flags.new } }
    ensures each { (k : ℕ) → result ≡ Ok k → EachWindow memory.now n to sheet.now flags.new }
{
    if !is_fit_crate(memory) {
        return Err(Refusal::UnfitCrate);
    }
    windows::sheets::flag_sheet(memory, n, to, sheet, flags)
}
