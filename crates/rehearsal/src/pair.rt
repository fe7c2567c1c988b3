// Demand 3 on the running calls: two lists on two crates.
ghost use Rattle.std.specs.Prelude.{◌≡◌, List, ℕ, Ok};
ghost use Rattle.lists.specs.Words.{orders_of};
ghost use Rattle.lists.specs.Runs.{Ran, list_of};
ghost use Rattle.rehearsal.specs.Pairs.{RearrangedWords, AlikeWords};

use crate::list::run_list;
use step::Refusal;

// The verdicts on the two runs.
#[derive(Clone, Copy)]
pub struct Pair {
    pub first: Result<(), Refusal>,
    pub second: Result<(), Refusal>,
}

// Runs two lists, each on its own crate. Where the crates are equal at first, both lists are run and the second is a rearrangement of the first, the
// crates end alike, and so do each step's answer and buffer.
pub fn run_pair(
    m1: &mut [u32],
    c1: usize,
    s1: &[u32],
    a1: &mut [u32],
    b1: &mut [u32],
    m2: &mut [u32],
    c2: usize,
    s2: &[u32],
    a2: &mut [u32],
    b2: &mut [u32],
) -> Pair
    ensures first { list_of m1.old c1 s1.now a1.old b1.old
        ≡ record { verdict = result.first; memory = m1.new; answers = a1.new; buffers = b1.new } }
    ensures second { list_of m2.old c2 s2.now a2.old b2.old
        ≡ record { verdict = result.second; memory = m2.new; answers = a2.new; buffers = b2.new } }
    ensures alike { m2.old ≡ m1.old → result.first ≡ (Ok tt) → result.second ≡ (Ok tt) → (p : List ℕ)
        → RearrangedWords (orders_of s1.now b1.old c1) (orders_of s2.now b2.old c2) p
        → AlikeWords (record { verdict = result.first; memory = m1.new; answers = a1.new; buffers = b1.new })
        (record { verdict = result.second; memory = m2.new; answers = a2.new; buffers = b2.new }) c2 p }
{
    let first = run_list(m1, c1, s1, a1, b1);
    let second = run_list(m2, c2, s2, a2, b2);
    Pair { first, second }
}
