// A file's samples printed fragment by fragment, so that no buffer need hold them all.
use adpcm::State;
use output::Output;
use sqv4::Header;

// Where the printing stands: the next fragment begins at `from`, `rest` samples of a channel are not printed yet, and the fragments
// before left the two channels in these states.
#[derive(Clone, Copy)]
pub(crate) struct Place {
    pub from: usize,
    pub rest: usize,
    pub first: State,
    pub second: State,
}

pub(crate) fn begun(samples: usize) -> Place {
    Place {
        from: 16,
        rest: samples,
        first: State::default(),
        second: State::default(),
    }
}

// The samples of one channel's fragment, as many as `out` has, and the state after them.
fn decode_piece(header: Header, state: State, fragment: &[u8], out: &mut [i16]) -> State {
    let variant = header.variant;
    if header.version == 3 {
        sqv4::decode_fragment(variant, fragment, out);
        return state;
    }
    sqv4::decode_legacy_fragment(header.version, variant, state, fragment, out)
}

// Puts the samples of two channels in turn, or those of the first alone.
fn put_pieces(text: &mut Output<'_>, first: &[i16], second: &[i16], both: bool) {
    for (&a, &b) in first.iter().zip(second) {
        crate::put_samples(&mut *text, &[a]);
        if both {
            crate::put_samples(&mut *text, &[b]);
        }
    }
}

// Prints the next fragment of each channel. Where there is one channel, what the second one's is decoded to is not put.
fn print_piece(header: Header, place: Place, file: &[u8], text: &mut Output<'_>) -> Place {
    let mut first = [0i16; 64];
    let mut second = [0i16; 64];
    let both = header.channels == 2;
    let count = place.rest.min(header.frame_samples).min(64);
    let middle = place.from.wrapping_add(header.frame_size);
    let to = middle.wrapping_add(header.frame_size);
    let left = decode_piece(
        header,
        place.first,
        num::part(file, place.from, middle),
        &mut first[..count],
    );
    let right = decode_piece(
        header,
        place.second,
        num::part(file, middle, to),
        &mut second[..count],
    );
    crate::make_room(&mut *text, 2048);
    put_pieces(text, &first[..count], &second[..count], both);
    Place {
        from: if both { to } else { middle },
        rest: place.rest.wrapping_sub(count),
        first: left,
        second: right,
    }
}

// Prints the fragments that stand in a file behind its header, from a place on.
pub(crate) fn print_pieces(
    header: Header,
    begun: Place,
    file: &[u8],
    text: &mut Output<'_>,
) -> Place {
    let mut place = begun;
    place.from = 16;
    for _ in 0..header.frame_count {
        place = print_piece(header, place, file, &mut *text);
    }
    place
}

// Puts what a file is, and writes what the text has no room for.
pub(crate) fn print_file(file: &[u8], text: &mut Output<'_>) {
    let found = sqv4::inspect(file);
    crate::put_answer(&mut *text, found);
    if let Ok(header) = found {
        print_pieces(header, begun(header.samples_per_channel), file, text);
    }
}
