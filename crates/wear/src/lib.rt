// A worn card: a stored row is lost from the medium that a power loss leaves, and recovery start must refuse it, or must have read all the rest.
#![tactic(auto)]

use answer::Refusal;
use book::Book;
use book::image::{Image, MOST_CELLS};
use keeper::Outcome;
use pull::RUBBISH;
use row::{Fault, Reason};

// Whether recovery start was refused with 2 and the hole at n.
fn names_hole(out: Outcome<u64>, n: u32) -> bool {
    let hole = Fault {
        reason: Reason::Hole,
        entry: n,
    };
    out.answer == Err(Refusal::Malformed(hole))
}

// Whether recovery start was accepted, and read the entries up to n.
fn ends_with(out: Outcome<u64>, n: u32) -> bool {
    out.answer.is_ok() && out.state.numbers.l == n
}

// The row after entry n's was lost, of the entries up to e: a hole, or, where it was the last, the journal's end.
fn judge(out: Outcome<u64>, n: u32, e: u32, book: &mut Book) {
    let lost = n.wrapping_add(1);
    if lost == e {
        book.ends.count();
        book.judge(ends_with(out, n));
    } else {
        book.holes.count();
        book.judge(names_hole(out, lost));
    }
}

// The first bytes of the row after entry n's lost on a copy, of the entries up to e.
fn lose(image: &Image, n: u32, bytes: usize, e: u32, book: &mut Book) {
    let mut copy = *image;
    copy.lose_row(n, bytes);
    let c = copy.cell_count();
    let mut current = [RUBBISH; MOST_CELLS];
    let out = pull::restart(&copy, &mut current[..c], 0xB5B5B5B5);
    judge(out, n, e, book);
}

// Each of the rows of h+1 to e lost in turn: its number alone, and then all of it.
pub fn wear(image: &Image, h: u32, e: u32, book: &mut Book) {
    for n in h..e {
        lose(image, n, 4, e, book);
        lose(image, n, 32, e, book);
    }
}
