// Questions at the counter, one after the other, each said and then answered.
#![tactic(auto)]

use counter_answer::answer;
use std::rt::HostRuntime;

// The garage's own table: 1.9 and 1.10 side by side, an empty cell, and 1.9 again.
const GARAGE: [&[u8]; 6] = [
    b"garage.medium\n0\n2\n",
    b"garage.medium\n0\n2\n40052\n",
    b"garage.medium\n0\n2\n40017\n",
    b"garage.medium\n0\n2\n7\n",
    b"garage.medium\n2\n2\n40099\n",
    b"garage.medium\n3\n2\n40018\n",
];

// Lines as people and editors leave them.
const LINES: [&[u8]; 8] = [
    b"garage.medium\r\n000\r\n2\r\n40017\r\n",
    b"garage.medium\n0\n2\n40017",
    b"garage.medium\n0\n2\n\n",
    b"garage.medium\n0\n2\nforty\n",
    b"garage.medium\n0\n",
    b"garage.medium\n-1\n2\n",
    b"garage.medium\n0\n2\n18446744073709551615\n",
    b"garage.medium\n0\n2\n18446744073709551616\n",
];

// Each refusal from both sides.
const EDGES: [&[u8]; 12] = [
    b"garage.medium\n5\n0\n",
    b"garage.medium\n5\n1\n",
    b"garage.medium\n4294967295\n2\n",
    b"garage.medium\n18446744073709551615\n2\n",
    b"garage.medium\n2\n1\n40017\n",
    b"garage.medium\n2\n0\n",
    b"nowhere.medium\n0\n2\n",
    b"\n0\n2\n",
    b"",
    b"damaged.medium\n0\n2\n",
    b"damaged.medium\n0\n3\n",
    b"short.medium\n0\n9\n",
];

// Case 5's medium says B before recovery, and A after it.
const RECOVERED: [&[u8]; 2] = [
    b"cut-off.medium\n0\n2\n40052\n",
    b"committed.medium\n0\n2\n40052\n",
];

// Each question said, and then answered.
fn ask_all(rt: HostRuntime, questions: &[&[u8]]) {
    for asked in questions {
        io::write_all(1, b"> ");
        io::write_all(1, asked);
        answer(rt, asked);
    }
}

fn main(rt: HostRuntime) {
    ask_all(rt, &GARAGE);
    ask_all(rt, &LINES);
    ask_all(rt, &EDGES);
    ask_all(rt, &RECOVERED);
}
