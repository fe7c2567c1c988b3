// The sizes of the crate memory, which is lent as 768 words of 32 bits: 24 blocks of 32. Block 0 is the crate's own, its word 0
// Inhibit I and its word 1 the Station Number Register; block n, from 1 to 23, is station n's.
#![tactic(auto)]

// The words of one block.
pub const BLOCK_WORDS: usize = 32;

// The stations for modules, numbered from 1.
pub const STATIONS: usize = 23;

// The words of the whole memory.
pub const MEMORY_WORDS: usize = BLOCK_WORDS * (1 + STATIONS);
