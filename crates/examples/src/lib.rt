// The twelve worked examples of document 01, (a) to (l), as one list: proofs/Examples.
// Nothing runs here; each is computed from the rules that the contracts cite.
#![tactic(auto)]
