// Prints what the SQV4 file on standard input is.
#![tactic(auto)]

fn main(rt: HostRuntime) {
    sqv4_text::print_single(&rt);
}
