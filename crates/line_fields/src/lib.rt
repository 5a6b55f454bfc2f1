// A voice line as numbers: written as text and read.
#![tactic(auto)]

mod reading;
mod table;
mod writing;

pub use reading::{closed, ends_at, read_line};
pub use table::{number_at, put_number, sample};
pub use writing::{put_line, write_line};

// What refuses to write a line: the text buffer is shorter than the line.
#[derive(Clone, Copy, PartialEq, Eq, Debug)]
pub enum RoomError {
    TextBuffer,
}

// What refuses to read a line: a field, by its number from 1, that is missing, malformed or out of range.
#[derive(Clone, Copy, PartialEq, Eq, Debug)]
pub enum FieldError {
    Malformed(usize),
}
