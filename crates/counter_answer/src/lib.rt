// One question at the counter, answered: the file that its first line names is read, and what `counter_text::screen` says of it is printed. Any bytes
// end in such lines: an unreadable file is a medium of no bytes.
#![tactic(auto)]

use files::read_file;
use lines::nth_bytes;
use std::rt::HostRuntime;

// Answers on standard output what is asked, a line each: a file name, lowest, count and, if given, the part in hand. The image is one byte longer
// than the largest medium, so that an overlong file is seen and refused.
pub fn answer(rt: HostRuntime, asked: &[u8]) {
    let mut image = [0; 40993];
    let size = read_file(rt, nth_bytes(asked, 0), &mut image);
    let text = counter_text::screen(&mut image[..size], asked);
    io::write_all(1, text.bytes());
}
