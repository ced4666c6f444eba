// Why does a cell say that: a file name and a cell number, a line each, from standard input; five lines, or the refusal's number, to standard output.
// All that it says is `why_text::why`, over the bytes of the file.
#![tactic(auto)]

use std::rt::HostRuntime;

// The line that asks: the second. An input that fills its buffer may go on, so it asks for no cell.
fn asked(input: &[u8]) -> &[u8] {
    if input.len() == 65536 {
        return &input[..0];
    }
    lines::nth_bytes(input, 1)
}

// The image is one byte longer than the largest medium, so that an overlong one is seen and refused. Of a file that can't be read it has no byte.
// `io` and `files` fill a slice and answer how much of it, and only that is handed on.
fn main(rt: HostRuntime) {
    let mut input = io::large_buffer();
    let got = io::read_full(0, &mut input);
    let mut image = [0; 40993];
    let size = files::read_file(rt, lines::nth_bytes(&input[..got], 0), &mut image);
    let text = why_text::why(&image[..size], asked(&input[..got]));
    io::write_all(1, text.bytes());
}
