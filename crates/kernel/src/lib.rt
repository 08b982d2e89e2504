// No code: one carrier's least path in two passes over layers of labels (specs/), and the proof that it is the least path of
// the definitions (proofs/).
#![tactic(auto)]
