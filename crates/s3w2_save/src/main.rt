// s3w2-save: plays the log on standard input, prints what it gives, and then the state in which it leaves the chip.
#![tactic(auto)]

fn main(rt: HostRuntime) {
    log_program::save_log(&rt);
}
