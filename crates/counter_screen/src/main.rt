// The counter's program: a question from standard input, its answer to standard output. All that it says is `counter_text::screen`.
#![tactic(auto)]

use std::rt::HostRuntime;

// An input that fills the buffer is too long for a file name and three numbers: it names no file.
fn main(rt: HostRuntime) {
    let mut input = [0; 8192];
    let got = io::read_full(0, &mut input);
    let asked = if got < input.len() { got } else { 0 };
    counter_answer::answer(rt, &input[..asked]);
}
