// Words of 24 bits, held in a u32: the wrapping sum with its carry, the complement, and bits set, cleared and read.
// The contracts cite the definitions of specs/Word.antt.
ghost use Rattle.std.specs.Prelude.{◌≡◌, ◌^◌, ◌<◌, ltb};
ghost use Rattle.word24.specs.Word.{sum_of, carry_of, complement_of, set_bits, clear_bits, bit_of, low_bits};

// 2^24: a word is below it.
pub(crate) const MODULUS: u32 = 1 << 24;

// The word whose 24 bits are all 1.
const ALL_ONES: u32 = MODULUS - 1;

// A sum brought back to 24 bits, and whether it had to be. Both mean something of every sum, as in std's `overflowing_add`, whose pair has no names.
#[derive(Clone, Copy)]
pub struct Sum24 {
    pub value: u32,
    pub carry: bool,
}

// The sum modulo 2^24, with its carry. Made in 64 bits, where it can't overflow, so it asks nothing of old and v.
pub fn add24(old: u32, v: u32) -> Sum24
    ensures value { result.value ≡ sum_of old v }
    ensures carry { result.carry ≡ carry_of old v }
{
    let s = u64::from(old) + u64::from(v);
    let modulus = u64::from(MODULUS);
    Sum24 {
        value: (s % modulus) as u32,
        carry: modulus <= s,
    }
}

// The complement of all 24 bits.
pub fn complement24(x: u32) -> u32
    requires { x < 2 ^ 24 }
    ensures { result ≡ complement_of x }
{
    ALL_ONES - x
}

// Selective set: the bits that are 1 in w become 1, the others stay.
pub fn set_bits(x: u32, w: u32) -> u32
    ensures { result ≡ set_bits x w }
{
    x | w
}

// Selective clear: the bits that are 1 in w become 0, the others stay.
#[tactic(auto, using(crate::proofs::BitLaws::and_not_word, crate::proofs::BitLaws::one_bit_word))]
pub fn clear_bits(x: u32, w: u32) -> u32
    ensures { result ≡ clear_bits x w }
{
    x & !w
}

// Bit a of x, 0 or 1.
pub fn bit(x: u32, a: u32) -> u32
    requires { a < 32 }
    ensures { result ≡ bit_of a x }
{
    (x >> a) % 2
}

// x with bit a set.
pub fn with_bit(x: u32, a: u32) -> u32
    requires { a < 32 }
    ensures { result ≡ set_bits x (2 ^ a) }
{
    x | 1 << a
}

// x with bit a cleared.
#[tactic(auto, using(crate::proofs::BitLaws::and_not_word, crate::proofs::BitLaws::one_bit_word))]
pub fn without_bit(x: u32, a: u32) -> u32
    requires { a < 32 }
    ensures { result ≡ clear_bits x (2 ^ a) }
{
    x & !(1 << a)
}

// The s low bits of w; those at s and above become 0.
pub fn low_bits(w: u32, s: u32) -> u32
    requires { s < 32 }
    ensures { result ≡ low_bits s w }
{
    w % (1 << s)
}

// Whether s bits hold x.
pub fn fits_bits(x: u32, s: u32) -> bool
    requires { s < 32 }
    ensures { result ≡ ltb x (2 ^ s) }
{
    x < 1 << s
}
