// Prints a line for each frame of a capture on standard input, and a line at its end (document 01's program).
// The gate runs it on document 01's example (stdin and stdout beside src/).
#![tactic(auto)]

fn main(rt: HostRuntime) {
    if program::alone(
        &rt,
        program::word_count(&rt),
        b"usage: ./run frames < CAPTURE\n",
    ) {
        capture::print_all(&rt);
    }
}
