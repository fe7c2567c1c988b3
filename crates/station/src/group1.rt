// Group 1 commands: the registers. Each is called where its class has A, and so below r.
// Of a buffer memory F0, F2, F3 and F9 have rules of their own (module buffer).
ghost use Rattle.std.specs.Prelude.{◌≡◌, true, [], ◌∷◌, ◌<◌};
ghost use Rattle.kinds.specs.Cases.{is_one_of};
ghost use Rattle.station.specs.Block.{FitBlock, kind_of, count_of};
ghost use Rattle.station.specs.Outcome.{Outcome};
ghost use Rattle.station.specs.Group1.{read_of, read_and_clear_of, read_complement_of, clear_of};
ghost use Rattle.station.specs.Group1.{overwrite_of, selective_set_of, selective_clear_of, added_of, execute_of};

use crate::block::{KIND, REGISTERS, set_status_bit};
use crate::{DONE, Reply, buffer, gives};
use kinds::BUFFER_MEMORY;
use word24::word::{add24, clear_bits, complement24, set_bits};

// F0.
#[tactic(auto, unfolding(crate::specs::Group1::read_of))]
pub fn read(b: &[u32], a: u32) -> Reply
    requires fit_block { FitBlock b.now }
    requires a_bound { a < 16 }
    requires below_r { a < count_of b.now }
    ensures { read_of b.now a ≡ record { block = b.now; reply = result } }
{
    if b[KIND] == BUFFER_MEMORY {
        return buffer::read(b);
    }
    gives(b[REGISTERS + a as usize])
}

// F2.
#[tactic(auto, unfolding(crate::specs::Group1::read_and_clear_of))]
pub fn read_and_clear(b: &mut [u32], a: u32) -> Reply
    requires fit_block { FitBlock b.old }
    requires a_bound { a < 16 }
    requires below_r { a < count_of b.old }
    ensures { read_and_clear_of b.old a ≡ record { block = b.new; reply = result } }
{
    if b[KIND] == BUFFER_MEMORY {
        return buffer::read_and_clear(b);
    }
    let i = REGISTERS + a as usize;
    let word = b[i];
    b[i] = 0;
    gives(word)
}

// F3.
#[tactic(auto, unfolding(crate::specs::Group1::read_complement_of))]
pub fn read_complement(b: &[u32], a: u32) -> Reply
    requires fit_block { FitBlock b.now }
    requires a_bound { a < 16 }
    requires below_r { a < count_of b.now }
    ensures { read_complement_of b.now a ≡ record { block = b.now; reply = result } }
{
    if b[KIND] == BUFFER_MEMORY {
        return buffer::read_complement(b);
    }
    gives(complement24(b[REGISTERS + a as usize]))
}

// F9.
#[tactic(auto, unfolding(crate::specs::Group1::clear_of))]
pub fn clear(b: &mut [u32], a: u32) -> Reply
    requires fit_block { FitBlock b.old }
    requires a_bound { a < 16 }
    requires below_r { a < count_of b.old }
    ensures { clear_of b.old a ≡ record { block = b.new; reply = result } }
{
    if b[KIND] == BUFFER_MEMORY {
        return buffer::clear(b);
    }
    b[REGISTERS + a as usize] = 0;
    DONE
}

// F16: kinds 2 and 5.
#[tactic(auto, unfolding(crate::specs::Group1::overwrite_of))]
pub fn overwrite(b: &mut [u32], a: u32, w: u32) -> Reply
    requires fit_block { FitBlock b.old }
    requires a_bound { a < 16 }
    requires below_r { a < count_of b.old }
    requires kind { is_one_of (kind_of b.old) (2 ∷ 5 ∷ []) ≡ true }
    ensures { overwrite_of b.old a w ≡ record { block = b.new; reply = result } }
{
    b[REGISTERS + a as usize] = w;
    DONE
}

// F18: kind 2.
#[tactic(auto, unfolding(crate::specs::Group1::selective_set_of))]
pub fn selective_set(b: &mut [u32], a: u32, w: u32) -> Reply
    requires fit_block { FitBlock b.old }
    requires a_bound { a < 16 }
    requires below_r { a < count_of b.old }
    requires kind { is_one_of (kind_of b.old) (2 ∷ []) ≡ true }
    ensures { selective_set_of b.old a w ≡ record { block = b.new; reply = result } }
{
    let i = REGISTERS + a as usize;
    b[i] = set_bits(b[i], w);
    DONE
}

// F21: kind 2.
#[tactic(auto, unfolding(crate::specs::Group1::selective_clear_of))]
pub fn selective_clear(b: &mut [u32], a: u32, w: u32) -> Reply
    requires fit_block { FitBlock b.old }
    requires a_bound { a < 16 }
    requires below_r { a < count_of b.old }
    requires kind { is_one_of (kind_of b.old) (2 ∷ []) ≡ true }
    ensures { selective_clear_of b.old a w ≡ record { block = b.new; reply = result } }
{
    let i = REGISTERS + a as usize;
    b[i] = clear_bits(b[i], w);
    DONE
}

// Adds v to register a of a scaler, with the carry in status bit a.
#[tactic(auto, unfolding(crate::specs::Group1::added_of))]
pub fn add(b: &mut [u32], a: u32, v: u32)
    requires fit_block { FitBlock b.old }
    requires a_bound { a < 16 }
    ensures { b.new ≡ added_of b.old a v }
{
    let i = REGISTERS + a as usize;
    let sum = add24(b[i], v);
    b[i] = sum.value;
    if sum.carry {
        set_status_bit(b, a);
    }
}

// F25: kind 1.
#[tactic(auto, unfolding(crate::specs::Group1::execute_of))]
pub fn execute(b: &mut [u32], a: u32) -> Reply
    requires fit_block { FitBlock b.old }
    requires a_bound { a < 16 }
    requires below_r { a < count_of b.old }
    requires kind { is_one_of (kind_of b.old) (1 ∷ []) ≡ true }
    ensures { execute_of b.old a ≡ record { block = b.new; reply = result } }
{
    add(b, a, 1);
    DONE
}
