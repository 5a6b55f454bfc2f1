// What is said where standard input or standard output fails.
use crate::Program;
use output::Output;
use program::STDOUT;
use session::LineRefusal;
use std::io::Error;

impl Program {
    // The name that it complains with.
    pub(crate) fn name(self) -> &'static [u8] {
        match self {
            Program::Play => b"s3w2-log: ",
            Program::Save => b"s3w2-save: ",
            Program::Load { .. } => b"s3w2-load: ",
        }
    }
}

pub(crate) fn complain(program: Program, reason: &[u8]) {
    program::complain(program.name(), reason);
}

// Writes the text's bytes before `end` to standard output, and answers whether it could.
pub(crate) fn written(program: Program, text: &[u8], end: usize) -> bool {
    program::written(program.name(), STDOUT, num::part(text, 0, end))
}

// Writes why a line of a state was refused.
pub(crate) fn write_refusal<T: Copy>(
    program: Program,
    answer: Result<T, LineRefusal>,
    text: &mut [u8],
) {
    let mut out = Output {
        buffer: &mut *text,
        at: 0,
    };
    log_state::put_refusal(answer, &mut out);
    let end = out.at;
    written(program, text, end);
}

// Reads behind the first `kept` bytes: how many bytes there are then. A buffer without room ends the input.
pub(crate) fn read_behind(
    rt: &HostRuntime,
    program: Program,
    input: &mut [u8],
    kept: usize,
) -> Result<Option<usize>, Error> {
    let read = program::read_behind(rt, input, kept);
    if read.is_err() {
        complain(program, b"the input cannot be read\n");
    }
    read
}
