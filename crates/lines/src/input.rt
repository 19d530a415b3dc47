// What a program reads before it answers.
ghost use Rattle.std.specs.Prelude.{◌≤◌, length, take};
ghost use Rattle.std.specs.Io.KnownBytes.{Consumes};

use std::io::Read;

// Reads until the text is full, the input ends or a read fails, and answers how many bytes it put at the text's beginning: the first that the input had.
pub fn read_full<I: Read>(input: &mut I, text: &mut [u8]) -> usize
    ensures upper_bound { result ≤ length text.new }
    ensures bytes { Consumes (I.remaining input.old) (I.remaining input.new) (take result text.new) }
{
    let mut n = 0;
    // Stays: (d) each read says itself how far it came, and no iterator counts in such steps.
    while n < text.len() {
        match input.read(&mut text[n..]) {
            Ok(0) | Err(_) => break,
            Ok(more) => n += more,
        }
    }
    n
}
