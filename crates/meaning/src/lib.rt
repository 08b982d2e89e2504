// No code: what the words of document 01 mean, said with quantifiers (specs/), and the proof that the definitions of the
// crate deck say the same (proofs/).
#![tactic(auto)]
