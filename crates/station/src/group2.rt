// Group 2 commands: the whole status at A12, the mask at A13, the requests at A14. Each is called where its class has A, at a module with sources.
ghost use Rattle.std.specs.Prelude.{◌≡◌, true, [], ◌∷◌, ◌<◌};
ghost use Rattle.kinds.specs.Cases.{is_one_of};
ghost use Rattle.station.specs.Block.{FitBlock, sources_of};
ghost use Rattle.station.specs.Outcome.{Outcome};
ghost use Rattle.station.specs.Group2.{read_group2_of, clear_group2_of, overwrite_group2_of, selective_set_group2_of, selective_clear_group2_of};

use crate::block::{MASK, STATUS, sources};
use crate::{DONE, Reply, gives};
use word24::word::{clear_bits, low_bits, set_bits};

// F1. What is left for the last arm is A14.
#[tactic(auto, unfolding(crate::specs::Group2::group2, crate::specs::Group2::read_group2_of))]
pub fn read(b: &[u32], a: u32) -> Reply
    requires fit_block { FitBlock b.now }
    requires has_sources { 0 < sources_of b.now }
    requires subaddress { is_one_of a (12 ∷ 13 ∷ 14 ∷ []) ≡ true }
    ensures { read_group2_of b.now a ≡ record { block = b.now; reply = result } }
{
    match a {
        12 => gives(b[STATUS]),
        13 => gives(b[MASK]),
        _ => gives(b[STATUS] & b[MASK]),
    }
}

// F11. What is left for the last arm is A13.
#[tactic(auto, unfolding(crate::specs::Group2::group2, crate::specs::Group2::clear_group2_of))]
pub fn clear(b: &mut [u32], a: u32) -> Reply
    requires fit_block { FitBlock b.old }
    requires has_sources { 0 < sources_of b.old }
    requires subaddress { is_one_of a (12 ∷ 13 ∷ []) ≡ true }
    ensures { clear_group2_of b.old a ≡ record { block = b.new; reply = result } }
{
    match a {
        12 => b[STATUS] = 0,
        _ => b[MASK] = 0,
    }
    DONE
}

// F17, at A13.
#[tactic(auto, unfolding(crate::specs::Group2::group2, crate::specs::Group2::overwrite_group2_of))]
pub fn overwrite(b: &mut [u32], w: u32) -> Reply
    requires fit_block { FitBlock b.old }
    requires has_sources { 0 < sources_of b.old }
    ensures { overwrite_group2_of b.old 13 w ≡ record { block = b.new; reply = result } }
{
    b[MASK] = low_bits(w, sources(b));
    DONE
}

// F19, at A13.
#[tactic(auto, unfolding(crate::specs::Group2::group2, crate::specs::Group2::selective_set_group2_of))]
pub fn selective_set(b: &mut [u32], w: u32) -> Reply
    requires fit_block { FitBlock b.old }
    requires has_sources { 0 < sources_of b.old }
    ensures { selective_set_group2_of b.old 13 w ≡ record { block = b.new; reply = result } }
{
    b[MASK] = set_bits(b[MASK], low_bits(w, sources(b)));
    DONE
}

// F23. What is left for the last arm is A13.
#[tactic(auto, unfolding(crate::specs::Group2::group2, crate::specs::Group2::selective_clear_group2_of))]
pub fn selective_clear(b: &mut [u32], a: u32, w: u32) -> Reply
    requires fit_block { FitBlock b.old }
    requires has_sources { 0 < sources_of b.old }
    requires subaddress { is_one_of a (12 ∷ 13 ∷ []) ≡ true }
    ensures { selective_clear_group2_of b.old a w ≡ record { block = b.new; reply = result } }
{
    let low = low_bits(w, sources(b));
    match a {
        12 => b[STATUS] = clear_bits(b[STATUS], low),
        _ => b[MASK] = clear_bits(b[MASK], low),
    }
    DONE
}
