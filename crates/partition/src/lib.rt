// No code: Murty's partition of the assignments that are not handed out yet (specs/), and the proof that the least of the parts'
// first assignments is the next in order (proofs/).
#![tactic(auto)]
