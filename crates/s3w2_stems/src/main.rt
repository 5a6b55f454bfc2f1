// s3w2-stems [--split | --live]: writes the stems of the log on standard input to standard output, as one WAV file of 32 channels; with the
// word --split as sixteen stereo ones, that of voice n to descriptor 3 + n. With the word --live a log from a pipe, whose sound goes to
// one, is not waited for to know its length.
#![tactic(auto)]

// Whether the first word is --split.
fn is_split(rt: &HostRuntime) -> bool {
    program::is_word(rt, 1, b"--split")
}

// Writes what one word asks for, and answers whether it is known.
fn write_asked(rt: &HostRuntime) -> bool {
    if is_split(rt) {
        sound_program::write_channels(rt);
        return true;
    }
    if program::is_word(rt, 1, b"--live") {
        sound_program::write_stems(rt, true);
        return true;
    }
    false
}

fn main(rt: HostRuntime) {
    let words = program::word_count(&rt);
    if words < 2 {
        sound_program::write_stems(&rt, false);
        return;
    }
    if words == 2 {
        if write_asked(&rt) {
            return;
        }
    }
    program::say(b"s3w2-stems: its only words are --split and --live\n");
}
