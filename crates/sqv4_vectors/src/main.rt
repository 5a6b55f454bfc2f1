// Prints what each of the SQV4 files on standard input is. Each stands after its length in 4 bytes, low byte first.
#![tactic(auto)]

fn main() {
    sqv4_text::print_batch();
}
