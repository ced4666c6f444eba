// Case 11, sizes of a medium, and case 12, the last cell of a table and the one after it.
use medium::head::format;
use tried::{Desk, SmallDesk, number, say, tell};

fn tell_format(cells: u32, slots: u32, medium: &mut [u8]) {
    let number = number(format(medium, cells, slots));
    let length = medium.len();
    say(format_args!(
        "case=11 format cells={cells} slots={slots} length={length} refused={number}\n"
    ));
}

// N, C and a length.
const SIZES: [(u32, u32, usize); 12] = [
    (0, 4, 160),
    (1, 4, 168),
    (1024, 4, 8352),
    (1025, 4, 8360),
    (2, 3, 144),
    (2, 4, 176),
    (2, 1024, 32816),
    (2, 1025, 32848),
    (2, 4, 175),
    (2, 4, 177),
    (1024, 1024, 40991),
    (1024, 1024, 40992),
];

pub fn case11() {
    let mut image = [0u8; 40992];
    for (cells, slots, length) in SIZES {
        if let Some(medium) = image.get_mut(..length) {
            tell_format(cells, slots, medium);
        }
    }
}

// A write of the last cell and of the one after it, each in a new transaction, N = 1,024 and C = 4.
pub fn last_cell() {
    let cases = [
        ("case=12 cells=1024 write cell=1023", 1023),
        ("case=12 cells=1024 write cell=1024", 1024),
    ];
    for (what, cell) in cases {
        let mut desk = Desk::<1024, 8352, 128>::recovered(1024, 4);
        desk.begin();
        tell(what, desk.write(cell, 7));
    }
}

// N = 2: the last cell and the one after it, and abort in idle, which makes no entry.
pub fn case12() {
    let mut desk = SmallDesk::fresh();
    tell("case=12 abort in idle", desk.abort());
    tell("case=12 after it", desk.last_made());
    tell("case=12 begin", desk.begin());
    tell("case=12 write cell=1", desk.write(1, 7));
    tell("case=12 write cell=2", desk.write(2, 7));
    tell("case=12 read cell=1", desk.read(1));
    tell("case=12 read cell=2", desk.read(2));
    tell("case=12 write-back cell=2", desk.write_back(2));
}
