// Cases 13 and 14: the last entry numbers, and rows that end a journal or are refused.
use tried::{SmallDesk, tell};

// A medium with this h, recovered.
fn recovered(h: u32) -> SmallDesk {
    let mut desk = SmallDesk::formatted(2, 4);
    number::put4(&mut desk.medium, 8, h);
    tell("case=13 start", desk.start());
    tell("case=13 step", desk.step());
    desk
}

// h = M.
fn none_left() {
    let mut desk = recovered(u32::MAX);
    tell("case=13 h=M begin", desk.begin());
}

// h = M-1: an end fits, a write does not. Entry M is stored and recovered.
fn one_left() {
    let mut desk = recovered(u32::MAX - 1);
    tell("case=13 h=M-1 begin", desk.begin());
    tell("case=13 h=M-1 write", desk.write(0, 7));
    tell("case=13 h=M-1 begin in run", desk.begin());
    tell("case=13 h=M-1 commit", desk.commit());
    tell("case=13 h=M-1 force", desk.force());
    tell("case=13 l=M begin", desk.begin());
    tell("case=13 entry M start", desk.start());
    tell("case=13 entry M step", desk.step());
}

// h = M-2: one write and an end fit.
fn two_left() {
    let mut desk = recovered(u32::MAX - 2);
    tell("case=13 h=M-2 begin", desk.begin());
    tell("case=13 h=M-2 begin in run", desk.begin());
    tell("case=13 l=M-1 begin in run", desk.begin());
    tell("case=13 l=M-1 write", desk.write(0, 7));
}

fn two_left_written() {
    let mut desk = recovered(u32::MAX - 2);
    tell("case=13 h=M-2 begin", desk.begin());
    tell("case=13 h=M-2 write", desk.write(0, 7));
    tell("case=13 l=M-1 commit", desk.commit());
}

pub fn case13() {
    none_left();
    one_left();
    two_left();
    two_left_written();
}

// The row of entry 1 with a number and a kind, all else zero.
pub fn case14() {
    let cases: [(&str, u8, u8); 5] = [
        ("case=14 number=1 kind=4", 1, 4),
        ("case=14 number=1 kind=3", 1, 3),
        ("case=14 number=1 kind=0", 1, 0),
        ("case=14 number=0 kind=4", 0, 4),
        ("case=14 number=2 kind=4", 2, 4),
    ];
    for (what, number, kind) in cases {
        let mut desk = SmallDesk::formatted(2, 4);
        desk.medium[32] = number;
        desk.medium[36] = kind;
        tell(what, desk.start());
        tell("case=14 step", desk.step());
    }
}
