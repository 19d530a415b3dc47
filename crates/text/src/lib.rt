// Bytes of a text: where a line ends, its key, and its decimal number, read and written. This crate knows nothing of refusals.
#![tactic(auto)]

// What the text of a number can lack: the form of a number, or its range.
#[derive(Clone, Copy, PartialEq, Eq)]
pub enum NumberFault {
    Form,
    Range,
}

// Above every i64; a number below a tenth of it has room for one more digit.
const TOO_LARGE: u64 = 10_000_000_000_000_000_000;

mod decimal;
mod line;
mod line_reader;
mod numbers;
mod write;

pub use decimal::{Decimal, put_ended};
pub use line::{has_key, len_to};
pub use line_reader::next_line;
pub use numbers::{number_after, read_number};
pub use write::{put_byte, put_bytes};
