// A row that is lost before others is a hole, and nothing is recovered; the last rows lost are the journal's end.
use tried::{SmallDesk, tell};

// The four rows, each with a number and kind 3, all else zero.
fn rows(numbers: [u32; 4]) -> SmallDesk {
    let mut desk = SmallDesk::formatted(2, 4);
    for (i, &number) in numbers.iter().enumerate() {
        let at = 32 + 32 * i;
        number::put4(&mut desk.medium, at, number);
        desk.medium[at + 4] = 3;
    }
    desk
}

// What recovery start answers, and the last entry that it read.
fn tell_start(what: &str, mut desk: SmallDesk) {
    tell(what, desk.start());
    tell(what, desk.last_made());
}

// h = 0: a row lost, and one in another's place or past h + C, which does not count.
fn from_first() {
    let cases: [(&str, [u32; 4]); 7] = [
        ("hole rows=1,2,3,4", [1, 2, 3, 4]),
        ("hole rows=1,2,3,0", [1, 2, 3, 0]),
        ("hole rows=0,2,3,0", [0, 2, 3, 0]),
        ("hole rows=1,0,3,4", [1, 0, 3, 4]),
        ("hole rows=1,0,0,4", [1, 0, 0, 4]),
        ("hole rows=1,0,0,8", [1, 0, 0, 8]),
        ("hole rows=1,0,4,3", [1, 0, 4, 3]),
    ];
    for (what, numbers) in cases {
        tell_start(what, rows(numbers));
    }
}

// h = 2: the rows of 1 and 2 are left over, or used again for 5 and 6.
fn used_again() {
    let cases: [(&str, [u32; 4]); 4] = [
        ("hole h=2 rows=1,2,0,0", [1, 2, 0, 0]),
        ("hole h=2 rows=5,2,0,0", [5, 2, 0, 0]),
        ("hole h=2 rows=1,6,0,0", [1, 6, 0, 0]),
        ("hole h=2 rows=1,6,3,4", [1, 6, 3, 4]),
    ];
    for (what, numbers) in cases {
        let mut desk = rows(numbers);
        desk.medium[8] = 2;
        tell_start(what, desk);
    }
}

// A row that does not read before the hole, and after it.
fn malformed() {
    let mut before = rows([1, 0, 3, 4]);
    before.medium[36] = 4;
    tell_start("hole rows=1,0,3,4 kind=4,3,3,3", before);
    let mut after = rows([1, 0, 3, 4]);
    after.medium[100] = 4;
    tell_start("hole rows=1,0,3,4 kind=3,3,4,3", after);
}

// h = M-2: entry M, in the third row, is the last that may count.
fn last_number() {
    let mut desk = rows([0, 0, u32::MAX, 0]);
    number::put4(&mut desk.medium, 8, u32::MAX - 2);
    tell_start("hole h=M-2 rows=0,0,M,0", desk);
    number::put4(&mut desk.medium, 8, u32::MAX - 1);
    tell_start("hole h=M-1 rows=0,0,M,0", desk);
}

pub fn holes() {
    from_first();
    used_again();
    malformed();
    last_number();
}
