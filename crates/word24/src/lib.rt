// The arithmetic of 24-bit words, lowest of the crates: sums and bits of a word, and the up-down counter's signed sums.
#![tactic(auto)]

pub mod counter;
pub mod word;
