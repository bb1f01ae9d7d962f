// Integer fields and FLOAT40 at a place, for C: each call is the reader or the writer of that name.
// What it tells, and every lent place, is that function's rule.
#![tactic(auto)]

pub mod reads;
pub mod writes;
