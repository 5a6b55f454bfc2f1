// s3w2-load [--stored] [--save]: reads a state and then a log from standard input, goes on from that state, and prints what the log
// gives. With the word --stored a chip without a FIFO drops what the state has in its queues, where it is turned away otherwise. With
// the word --save it ends with the state in which the log leaves the chip, and not with the peak.
#![tactic(auto)]

// Whether a word is given, behind the program's name.
fn is_given(rt: &HostRuntime, name: &[u8]) -> bool {
    (1..program::word_count(rt)).any(|k| program::is_word(rt, k, name))
}

fn main(rt: HostRuntime) {
    let stored = is_given(&rt, b"--stored");
    let saves = is_given(&rt, b"--save");
    if program::word_count(&rt) <= 1 + usize::from(stored) + usize::from(saves) {
        log_program::load_log(&rt, stored, saves);
        return;
    }
    program::say(b"s3w2-load: its only words are --stored and --save\n");
}
