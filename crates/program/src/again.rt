// Files that are open under a descriptor, opened again. Each has a place of its own then: what is read or written there leaves the
// descriptor's place as it is.
use std::fs;
use std::fs::{File, OpenOptions};
use std::io::{Seek, SeekFrom};
use std::os::unix::fs::FileTypeExt;

// Whether opening does not wait: a pipe with a name waits for its other end, and neither a pipe nor a socket has a place to go back to.
fn opens_at_once(rt: &HostRuntime, path: &str) -> bool {
    let Ok(found) = fs::metadata(rt, path) else {
        return false;
    };
    let kind = found.file_type();
    !kind.is_fifo() && !kind.is_socket()
}

fn opened(rt: &HostRuntime, descriptor: i32, how: &OpenOptions) -> Option<File> {
    let path = format!(in rt.alloc(); "/dev/fd/{descriptor}").ok()?;
    if !opens_at_once(rt, path.as_str()) {
        return None;
    }
    how.open(rt, path.as_str()).ok()
}

// The descriptor's place in its file, from the system's first line on it: `pos:` and a number.
fn place(rt: &HostRuntime, descriptor: i32) -> Option<u64> {
    let path = format!(in rt.alloc(); "/proc/self/fdinfo/{descriptor}").ok()?;
    let told = fs::read_to_string(rt, path.as_str()).ok()?;
    let line = told.as_str().lines().next()?;
    line.strip_prefix("pos:")?.trim().parse::<u64>().ok()
}

// A file at the descriptor's place. There is none where the system cannot go to a place in it, as in a terminal.
fn at_place(rt: &HostRuntime, descriptor: i32, how: &OpenOptions) -> Option<File> {
    let mut file = opened(rt, descriptor, how)?;
    let at = place(rt, descriptor)?;
    file.seek(SeekFrom::Start(at)).ok()?;
    Some(file)
}

// What standard input reads, opened again to be read from the place where it stands. There is none where it cannot be read again, as
// from a pipe.
pub fn input_again(rt: &HostRuntime) -> Option<File> {
    let mut how = OpenOptions::new();
    how.read(true);
    at_place(rt, crate::STDIN, &how)
}

// What a descriptor writes, opened again to be written at the place where it stands; it is neither emptied nor made. There is none
// where nothing can be written again, as to a pipe.
pub fn output_again(rt: &HostRuntime, descriptor: i32) -> Option<File> {
    let mut how = OpenOptions::new();
    how.write(true);
    at_place(rt, descriptor, &how)
}
