// What is wrong with a row, printed for people.
#![tactic(auto)]

use row::Fault;
use std::fmt;

// The entry expected in the row, and the reason: `entry 3: cell out of range`.
pub fn print(fault: Fault) {
    io::write_all(1, fmt::InlineText::<64>::of(fault).as_str().as_bytes());
}
