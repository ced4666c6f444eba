// The stock controller's plug: made-up histories through the keeper's calls, power cut at every store in turn and again after each store of
// the recovery that follows, and the table compared with one that the plug works out from its own list of stored transactions.
//
// It prints what it tried and how much differed: `differences=0`. What a check found wrong is counted there, whatever it was.
#![tactic(auto)]

mod history;

use book::{Book, Tally};

// Standard output's descriptor.
const STDOUT_FILENO: i32 = 1;

const TRIED: u32 = 6000;

const TURNS: u32 = 60;

// The i-th history: the larger i, the more cells and rows it may have.
fn one(i: u32, book: &mut Book) {
    let spread = 1 + i % 28;
    let cells = 1 + book.below(spread);
    let slots = 4 + book.below(spread);
    let differences = book.differences;
    history::history(cells, slots, TURNS, book);
    if book.differences != differences {
        book.struck.count();
    }
}

fn line(name: &[u8], tally: Tally) {
    io::write_all(STDOUT_FILENO, name);
    io::print_decimal(STDOUT_FILENO, tally.number);
    io::write_all(STDOUT_FILENO, b"\n");
}

// What was tried, what the plug did to it, and what differed.
fn tell(book: &Book) {
    line(b"histories=", book.histories);
    line(b"calls=", book.calls);
    line(b"refused=", book.refused);
    line(b"stores=", book.stores);
    line(b"cuts=", book.cuts);
    line(b"recoveries=", book.recoveries);
    line(b"restored=", book.restored);
    line(b"holes=", book.holes);
    line(b"ends=", book.ends);
    line(b"struck=", book.struck);
    line(b"differences=", book.differences);
}

fn main() {
    let mut book = Book::new(20_261_115);
    for i in 0..TRIED {
        one(i, &mut book);
    }
    tell(&book);
}
