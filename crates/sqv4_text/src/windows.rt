// A file that is longer than a buffer, read window by window. The fragments of a window behind the file's header, in which the number of
// samples is the window's own, are a file by themselves: its check finds in them what the check of the whole finds there.
use crate::LONGEST_READ;
use crate::pieces::{Place, begun, print_pieces};
use output::Output;
use program::STDIN;
use sqv4::{Header, InspectError};
use std::fs::File;
use std::io::{Seek, SeekFrom};

// The bytes of a header.
const HEAD: usize = 16;

// The fragments of a channel in a window: at most 61,200 bytes of both channels.
const FRAGMENTS: usize = 900;

// Where a walk over the windows stands: `rest` samples of a channel are in the windows that follow; what the last one was found to be;
// where the printing stands, if the file is not only checked.
#[derive(Clone, Copy)]
struct Walk {
    rest: usize,
    found: Result<Header, InspectError>,
    place: Option<Place>,
}

// The input opened again, the place where it began, and the buffer that it is read into.
#[derive(Drop)]
struct Source<'a> {
    file: File,
    begin: u64,
    window: &'a mut [u8],
}

// A file, and the place where it stands: where the input began.
fn begun_at(again: Option<File>) -> Option<(File, u64)> {
    let mut file = again?;
    let begin = file.stream_position().ok()?;
    Some((file, begin))
}

// Goes back to where the input began.
fn again(source: &mut Source<'_>) {
    let _ = source.file.seek(SeekFrom::Start(source.begin));
}

// The bytes of the input, of which some have been read, or some more than the longest file has.
fn count_input(read: usize, window: &mut [u8]) -> usize {
    let mut count = read.min(65536);
    // Kept as it is: no index is counted here; each turn goes on by as many bytes as were read.
    while count <= LONGEST_READ {
        let got = io::read_full(STDIN, &mut *window).min(65536);
        if got == 0 {
            return count;
        }
        count += got;
    }
    count
}

// Sets the number of samples of the header at the front of a window.
fn put_count(window: &mut [u8], samples: usize) {
    let mut head = Output {
        buffer: window,
        at: 12,
    };
    head.put_bytes(&samples.to_le_bytes()[..4]);
}

// The number of samples that the header at the front of a window says.
fn count_of(window: &[u8]) -> usize {
    crate::number(&[
        num::byte_at(window, 12),
        num::byte_at(window, 13),
        num::byte_at(window, 14),
        num::byte_at(window, 15),
    ])
}

// Reads the header.
fn read_head(source: &mut Source<'_>) {
    let end = HEAD.min(source.window.len());
    program::read_full(&mut source.file, &mut source.window[..end]);
}

// Reads bytes behind the header of a window, and answers where they end.
fn read_window(source: &mut Source<'_>, bytes: usize) -> usize {
    let end = (HEAD + bytes.min(65536)).min(source.window.len());
    let start = HEAD.min(end);
    start + program::read_full(&mut source.file, &mut source.window[start..end]).min(65536)
}

// The bytes of the fragments of a window.
fn window_bytes(header: Header) -> usize {
    let size = header.frame_size.min(34);
    if header.channels == 2 {
        return 2 * FRAGMENTS * size;
    }
    FRAGMENTS * size
}

// The samples of a channel in the next window.
fn window_samples(header: Header, rest: usize) -> usize {
    rest.min(FRAGMENTS * header.frame_samples.min(64))
}

// Makes the next window a file by itself, and answers where it ends.
fn next_window(source: &mut Source<'_>, header: Header, rest: usize) -> usize {
    let end = read_window(&mut *source, window_bytes(header));
    put_count(&mut *source.window, window_samples(header, rest));
    end
}

// Prints a window from a place on, and answers where the printing goes on; of a file that is only checked there is no place.
fn printed(
    header: Header,
    place: Option<Place>,
    file: &[u8],
    text: &mut Output<'_>,
) -> Option<Place> {
    Some(print_pieces(header, place?, file, text))
}

// The check of a window, after which it is printed, if it is to be.
fn passed(header: Header, walk: Walk, file: &[u8], text: &mut Output<'_>) -> Walk {
    let place = walk.place;
    let found = sqv4::inspect(file);
    let Ok(own) = found else {
        return Walk {
            rest: 0,
            found,
            place,
        };
    };
    let samples = window_samples(header, walk.rest);
    Walk {
        rest: walk.rest.wrapping_sub(samples),
        found,
        place: printed(own, place, file, text),
    }
}

fn step(source: &mut Source<'_>, header: Header, walk: Walk, text: &mut Output<'_>) -> Walk {
    let end = next_window(&mut *source, header, walk.rest);
    passed(header, walk, num::part(&*source.window, 0, end), text)
}

// All windows of a file, behind its header, printed from a place on or only checked.
fn walked(
    source: &mut Source<'_>,
    header: Header,
    place: Option<Place>,
    text: &mut Output<'_>,
) -> Walk {
    let mut walk = Walk {
        rest: header.samples_per_channel,
        found: Ok(header),
        place,
    };
    for _ in 0u64..0xffff_ffff {
        if walk.rest == 0 {
            return walk;
        }
        walk = step(&mut *source, header, walk, &mut *text);
    }
    walk
}

// What the fragments of a file are found to be.
fn checked(
    source: &mut Source<'_>,
    header: Header,
    text: &mut Output<'_>,
) -> Result<Header, InspectError> {
    walked(source, header, None, text).found
}

// Prints a file that is taken.
fn print_taken(source: &mut Source<'_>, header: Header, text: &mut Output<'_>) {
    crate::put_answer(&mut *text, Ok(header));
    again(&mut *source);
    read_head(&mut *source);
    let first = begun(header.samples_per_channel);
    walked(source, header, Some(first), text);
}

// Prints a file whose length is right.
fn print_walked(source: &mut Source<'_>, header: Header, text: &mut Output<'_>) {
    if let Err(error) = checked(&mut *source, header, &mut *text) {
        return crate::put_answer(text, Err(error));
    }
    print_taken(source, header, text)
}

// The length that a header at the front of a window asks for.
fn asked(window: &[u8]) -> usize {
    match sqv4::inspect(num::part(window, 0, HEAD)) {
        Err(InspectError::InvalidFileLength { expected, .. }) => expected,
        _ => HEAD,
    }
}

// A file's header: what it is found to be, its samples and the file's length left aside; how many samples of a channel it says; the
// length that it asks for.
#[derive(Clone, Copy)]
struct FileHead {
    found: Result<Header, InspectError>,
    samples: usize,
    expected: usize,
}

fn file_head(source: &mut Source<'_>) -> FileHead {
    again(&mut *source);
    read_head(&mut *source);
    let samples = count_of(&*source.window);
    let expected = asked(&*source.window);
    put_count(&mut *source.window, 0);
    FileHead {
        found: sqv4::inspect(num::part(&*source.window, 0, HEAD)),
        samples,
        expected,
    }
}

// A header with another number of samples.
fn with_samples(header: Header, samples: usize) -> Header {
    Header {
        samples_per_channel: samples,
        ..header
    }
}

// What a file with a header is found to be by its length.
fn found_of(head: FileHead, length: usize) -> Result<Header, InspectError> {
    let header = head.found?;
    let expected = head.expected;
    if length != expected {
        return Err(InspectError::InvalidFileLength {
            expected,
            actual: length,
        });
    }
    Ok(with_samples(header, head.samples))
}

// Prints a file that is not too long.
fn print_opened(source: &mut Source<'_>, length: usize, text: &mut Output<'_>) {
    let head = file_head(&mut *source);
    let found = found_of(head, length);
    let Ok(header) = found else {
        return crate::put_answer(text, found);
    };
    print_walked(source, header, text)
}

// Puts what the file on standard input is, of which so many bytes have been read, and writes what the text has no room for. It is read
// again from where it began; one that cannot be read again is too long.
pub(crate) fn print_long(
    again: Option<File>,
    read: usize,
    window: &mut [u8],
    text: &mut Output<'_>,
) {
    if let Some((file, begin)) = begun_at(again) {
        let length = count_input(read, &mut *window);
        if length <= LONGEST_READ {
            let mut source = Source {
                file,
                begin,
                window,
            };
            return print_opened(&mut source, length, text);
        }
    }
    text.put_bytes(b"too long\n")
}
