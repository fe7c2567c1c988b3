// LAM commands: one source each. Each is called where its class has A, and so below s.
ghost use Rattle.std.specs.Prelude.{◌≡◌, ◌<◌};
ghost use Rattle.word24.specs.Word.{bit_of};
ghost use Rattle.station.specs.Block.{FitBlock, sources_of};
ghost use Rattle.station.specs.Outcome.{Outcome, tells};
ghost use Rattle.station.specs.Lam.{lam, test_lam_of, test_status_of, clear_lam_of, disable_of, enable_of};

use crate::block::{MASK, STATUS};
use crate::{DONE, Reply};
use word24::word::{bit, with_bit, without_bit};

// Q is bit a of v.
fn test(b: &[u32], a: u32, v: u32) -> Reply
    requires fit_block { FitBlock b.now }
    requires a_bound { a < 16 }
    requires below_s { a < sources_of b.now }
    ensures { lam b.now a (tells b.now (bit_of a v)) ≡ record { block = b.now; reply = result } }
{
    Reply {
        x: 1,
        q: bit(v, a),
        r: 0,
    }
}

// F8.
#[tactic(auto, unfolding(crate::specs::Lam::test_lam_of))]
pub fn test_lam(b: &[u32], a: u32) -> Reply
    requires fit_block { FitBlock b.now }
    requires a_bound { a < 16 }
    requires below_s { a < sources_of b.now }
    ensures { test_lam_of b.now a ≡ record { block = b.now; reply = result } }
{
    test(b, a, b[STATUS] & b[MASK])
}

// F27.
#[tactic(auto, unfolding(crate::specs::Lam::test_status_of))]
pub fn test_status(b: &[u32], a: u32) -> Reply
    requires fit_block { FitBlock b.now }
    requires a_bound { a < 16 }
    requires below_s { a < sources_of b.now }
    ensures { test_status_of b.now a ≡ record { block = b.now; reply = result } }
{
    test(b, a, b[STATUS])
}

// F10.
#[tactic(auto, unfolding(crate::specs::Lam::clear_lam_of))]
pub fn clear_lam(b: &mut [u32], a: u32) -> Reply
    requires fit_block { FitBlock b.old }
    requires a_bound { a < 16 }
    requires below_s { a < sources_of b.old }
    ensures { clear_lam_of b.old a ≡ record { block = b.new; reply = result } }
{
    b[STATUS] = without_bit(b[STATUS], a);
    DONE
}

// F24.
#[tactic(auto, unfolding(crate::specs::Lam::disable_of))]
pub fn disable(b: &mut [u32], a: u32) -> Reply
    requires fit_block { FitBlock b.old }
    requires a_bound { a < 16 }
    requires below_s { a < sources_of b.old }
    ensures { disable_of b.old a ≡ record { block = b.new; reply = result } }
{
    b[MASK] = without_bit(b[MASK], a);
    DONE
}

// F26.
#[tactic(auto, unfolding(crate::specs::Lam::enable_of))]
pub fn enable(b: &mut [u32], a: u32) -> Reply
    requires fit_block { FitBlock b.old }
    requires a_bound { a < 16 }
    requires below_s { a < sources_of b.old }
    ensures { enable_of b.old a ≡ record { block = b.new; reply = result } }
{
    b[MASK] = with_bit(b[MASK], a);
    DONE
}
