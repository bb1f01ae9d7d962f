// Definitions and laws that belong to no one subject, each said once for all crates. It has no code of its own: specs/ has
// the two definitions that contracts cite, proofs/ the laws.
#![tactic(auto)]
