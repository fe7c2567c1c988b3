// Lists of steps may be regrouped: what a list of steps does (specs/Lists.antt), what keeps to a set of stations (specs/Local.antt), and the
// claim about two whole lists (proofs/Whole.antt). The crate has definitions and laws only, and no code.
#![tactic(auto)]
