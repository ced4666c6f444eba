// Why cells of media that this program makes itself say what they say: for each a line `asked=`, then the five lines or the refusal's number.
#![tactic(auto)]

use medium::head::format;
use row::Entry;

// Part, major and minor of a release, as a cell's value.
const A: u64 = 40017 + 4294967296 * 1 + 281474976710656 * 9;

const B: u64 = 40052 + 4294967296 * 1 + 281474976710656 * 10;

// An update of a cell.
fn update(cell: u32, old: u64, new: u64) -> Entry {
    Entry::Update { cell, old, new }
}

// Two cells, the first with B in the table, and four entries at most after h, each in its row of four.
fn made(h: u8, entries: &[Entry]) -> [u8; 176] {
    let mut medium = [0; 176];
    let _ = format(&mut medium, 2, 4);
    number::put4(&mut medium, 8, u32::from(h));
    number::put8(&mut medium, 160, B);
    for (i, &what) in (0u8..4).zip(entries) {
        let before = u32::from(h) + u32::from(i);
        let at = 32 + 32 * (before % 4) as usize;
        row::write_row(&mut medium[at..], before + 1, what);
    }
    medium
}

// What is said of the cell that a line asks for.
fn tell(name: &str, medium: &[u8], line: &[u8]) {
    io::write_all(1, b"asked=");
    io::write_all(1, name.as_bytes());
    io::write_all(1, b"\n");
    let text = why_text::why(medium, line);
    io::write_all(1, text.bytes());
}

// No entry names the cell, or a committed transaction decides.
fn kept() {
    tell("no entry", &made(0, &[]), b"0");
    let others = made(0, &[update(1, 0, A), Entry::Commit]);
    tell("another cell's entries", &others, b"0");
    tell("committed", &others, b"1");
}

// A cell written twice.
fn twice() {
    let first = update(0, 0, A);
    let second = update(0, A, B);
    let other = update(1, 0, A);
    let written = made(0, &[first, second, other, Entry::Commit]);
    tell("committed, written twice", &written, b"0");
    let aborted = made(0, &[first, second, Entry::Abort]);
    tell("aborted, written twice", &aborted, b"0");
}

// A transaction without an end, and later transactions.
fn later() {
    let first = update(0, 0, A);
    let second = update(0, A, B);
    let other = update(1, 0, A);
    let open = made(0, &[first, Entry::Commit, second]);
    tell("unfinished", &open, b"0");
    let more = made(0, &[first, Entry::Commit, other, Entry::Abort]);
    tell("a later transaction of another cell", &more, b"0");
    tell("that other cell", &more, b"1");
    let turned = made(7, &[first, Entry::Abort, second, Entry::Commit]);
    tell("rows used again", &turned, b"00");
}

// Lines that ask for no cell.
fn no_cell(medium: &[u8]) {
    tell("no such cell", medium, b"2");
    tell("no number", medium, b"0x1");
    tell("no line", medium, b"");
    tell("above 64 bits", medium, b"18446744073709551616");
}

// Case 5's medium with its first row lost, and with its last row lost.
fn worn() {
    let entries = [update(0, 0, A), Entry::Commit, update(0, A, B)];
    let mut hole = made(0, &entries);
    hole[32] = 0;
    tell("a hole", &hole, b"0");
    let mut ended = made(0, &entries);
    ended[96] = 0;
    tell("the last row lost", &ended, b"0");
}

// Which refusal comes first.
fn damaged(medium: &mut [u8; 176]) {
    medium[68] = 4;
    tell("a row that does not read", medium, b"0");
    tell("that, and no such cell", medium, b"2");
    medium[12] = 1;
    tell("a head out of rule", medium, b"0");
    tell("that, and no number", medium, b"");
    tell("no byte at all", &[], b"0");
}

fn main() {
    kept();
    twice();
    later();
    worn();
    let mut medium = made(0, &[update(0, 0, A), Entry::Commit]);
    no_cell(&medium);
    damaged(&mut medium);
}
