// Showing what stands on the medium.
use crate::say;
use crate::say::{Cause, STDOUT_FILENO};
use answer::Refusal;
use keeper::State;

// A number of the head, for sizes; 0 of a medium without one.
pub fn head_number(medium: &[u8], at: usize) -> usize {
    if at > 28 || medium.len() < 32 {
        return 0;
    }
    number::get4(medium, at) as usize
}

// The length of the waiting rows that the head asks for, never more than the most.
pub fn row_bytes(medium: &[u8]) -> usize {
    32 * head_number(medium, 4).min(1024)
}

// The table's cells that are not empty.
fn cells(table: &[u8]) {
    for (i, cell) in table.chunks_exact(8).enumerate().take(1025) {
        let value = number::get8(cell, 0);
        if value != 0 {
            say::pair(b"cell=", i as u64);
            say::value(value);
        }
    }
}

// What the file holds of a medium in memory of the most that one has.
fn within(medium: &[u8], size: usize) -> &[u8] {
    medium.get(..size).unwrap_or(medium)
}

// Why a call on this medium is refused with 1.
fn cause_of(medium: &[u8]) -> Cause {
    if medium.is_empty() {
        Cause::Empty
    } else if medium::head::try_table_view(medium).is_err() {
        Cause::NoMedium
    } else {
        Cause::NoRecovery
    }
}

pub fn cause(medium: &[u8], size: usize) -> Cause {
    cause_of(within(medium, size))
}

// A refusal of a call on this medium.
pub fn refused(why: Refusal, medium: &[u8]) -> bool {
    match why {
        Refusal::Unfit => say::unfit(cause_of(medium)),
        _ => say::refused(why),
    }
}

// The table as it stands on the medium, in the listing's form.
pub fn list(medium: &[u8], size: usize) -> bool {
    let medium = within(medium, size);
    let table = match medium::head::try_table_view(medium) {
        Ok(table) => table,
        Err(why) => return refused(why, medium),
    };
    say::pair(b"cells=", head_number(medium, 0) as u64);
    say::pair(b"slots=", head_number(medium, 4) as u64);
    say::pair(b"head=", head_number(medium, 8) as u64);
    cells(table);
    say::say(b"answer=0\n")
}

// Bytes, two digits each.
fn hex(part: &[u8]) {
    for &b in part {
        io::print_hex(STDOUT_FILENO, u64::from(b), 2);
    }
}

// An entry's 32 bytes, where they stand.
pub fn look(state: State, n: u32, medium: &[u8], waiting: &[u8], size: usize) -> bool {
    let waiting = within(waiting, row_bytes(medium));
    let medium = within(medium, size);
    let row = match state.try_look(n, medium, waiting) {
        Ok(row) => row,
        Err(why) => return refused(why, medium),
    };
    say::say(b"entry=");
    hex(row);
    say::say(b"\nanswer=0\n")
}
