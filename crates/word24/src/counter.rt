// The up-down counter: a register and an event's word are read as signed numbers of 24 bits, and added in an i32.
// The contracts cite the definitions of specs/Counter.antt.
ghost use Rattle.std.specs.Prelude.{◌≡◌, ◌^◌, ◌<◌};
ghost use Rattle.word24.specs.Counter.{signed_of, exact_sum, mod24, in_span, raises_at};

use crate::word;

// The lowest number of the span.
const LOWEST: i32 = -(1 << 23);

// The highest number of the span.
const HIGHEST: i32 = (1 << 23) - 1;

// By so much a word of 2^23 or more exceeds the number that it stands for.
const MODULUS: i32 = word::MODULUS as i32;

// What an event leaves: the register's new word, and whether its status bit is set. Each event gives both, so that no Option fits.
#[derive(Clone, Copy)]
pub struct Counted {
    pub value: u32,
    pub flag: bool,
}

// A word read as a signed number.
#[tactic(auto, unfolding(crate::specs::Counter::signed_of))]
pub fn signed24(x: u32) -> i32
    requires { x < 2 ^ 24 }
    ensures { result ≡ signed_of x }
{
    let z = x as i32;
    if z <= HIGHEST { z } else { z - MODULUS }
}

// A signed number back to a word.
pub fn wrap24(z: i32) -> u32
    ensures { result ≡ mod24 z }
{
    z.rem_euclid(MODULUS) as u32
}

// Whether z is a signed number of 24 bits.
pub fn in_span(z: i32) -> bool
    ensures { result ≡ in_span z }
{
    (LOWEST..=HIGHEST).contains(&z)
}

// Whether the exact sum z sets the status bit: it is outside the span, or it is 0 while the register was not.
pub fn raises(old: u32, z: i32) -> bool
    ensures { result ≡ raises_at old z }
{
    !in_span(z) || (z == 0 && old != 0)
}

// An event v at a register that holds old. The flag looks at the exact sum, before it is brought back to 24 bits.
#[tactic(auto, using(crate::proofs::CounterLaws::mag_signed))]
pub fn count24(old: u32, v: u32) -> Counted
    requires { (old < 2 ^ 24) × (v < 2 ^ 24) }
    ensures value { result.value ≡ mod24 (exact_sum old v) }
    ensures flag { result.flag ≡ raises_at old (exact_sum old v) }
{
    let z = signed24(old) + signed24(v);
    Counted {
        value: wrap24(z),
        flag: raises(old, z),
    }
}
