// s3w2-levels: prints the levels of each tenth of a second of the log on standard input.
#![tactic(auto)]

fn main(rt: HostRuntime) {
    sound_program::print_levels(&rt);
}
