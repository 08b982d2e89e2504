// No code: what prices, a matching and the tree of one round of the Hungarian method are (specs/), and the laws by which the
// method comes to the first assignment in order (proofs/).
#![tactic(auto)]
