// The relay's laws (request 11): of stuffing, sums and unstuffing, of what the operations answer, and of a payload that is sent in fragments.
// It has no code of its own: they are stated in specs/ and proved in proofs/, over the contracts of `stuffing`, `unstuffing` and `frame`.
#![tactic(auto)]
