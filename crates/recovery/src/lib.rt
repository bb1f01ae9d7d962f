// Condition 3: what a line of frames gives after noise. It has no code of its own: the theorem, stated in
// specs/Recovery and proved in proofs/Recovery, is about the contracts of `splitter` and `frame`.
#![tactic(auto)]
