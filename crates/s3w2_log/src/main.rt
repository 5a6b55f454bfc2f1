// s3w2-log: plays the log on standard input and prints what it gives on standard output.
#![tactic(auto)]

fn main(rt: HostRuntime) {
    log_program::play_log(&rt);
}
