// A splitter over a whole stream of bytes, however it is cut into chunks. It has no code of its own: the theorems, stated
// over specs/, are about the contracts of `splitter` and `view`.
#![tactic(auto)]
