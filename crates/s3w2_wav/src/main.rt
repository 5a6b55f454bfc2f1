// s3w2-wav [--live]: writes the mix of the log on standard input to standard output, as a WAV file. With the word --live a log from a pipe,
// whose sound goes to one, is not waited for to know its length.
#![tactic(auto)]

fn main(rt: HostRuntime) {
    let live = program::is_word(&rt, 1, b"--live");
    sound_program::write_mix(&rt, live);
}
