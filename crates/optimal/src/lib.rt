// No code: what the search promises, over abstract paths and constraints (specs/), and the proof that it keeps its promises,
// with the deck as an instance (proofs/).
#![tactic(auto)]
