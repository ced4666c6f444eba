// The edges of the refusal table, N = 2 and C = 4: each number given, and not given one step to the other side. A line for each call that is
// tried, held to what the papers say. (2, 4 and 6: the program `cases`.)
#![tactic(auto)]

use tried::{SmallDesk, tell};

// A keeper in run, with nothing written.
fn open(what: &str) -> SmallDesk {
    let mut desk = SmallDesk::fresh();
    tell(what, desk.begin());
    desk
}

// 1: a state that is not sound, and a buffer of another length.
fn one() {
    let mut desk = open("edge=1 begin");
    let mut medium = desk.medium;
    let mut rows = desk.medium;
    tell(
        "edge=1 commit with 176 waiting bytes",
        desk.commit_on(&mut medium, &mut rows),
    );
    let mut short = desk.waiting;
    let mut waiting = desk.waiting;
    tell(
        "edge=1 commit with a medium of 128 bytes",
        desk.commit_on(&mut short, &mut waiting),
    );
    tell(
        "edge=1 commit with 128 waiting bytes and a medium of 176",
        desk.commit_on(&mut medium, &mut waiting),
    );
    tell("edge=1 start of an empty medium", desk.start_on(&[]));
    tell("edge=1 read after it", desk.read(0));
}

// 3: idle and run.
fn three() {
    let mut desk = SmallDesk::fresh();
    tell("edge=3 read in idle", desk.read(0));
    tell("edge=3 write in idle", desk.write(0, 7));
    tell("edge=3 commit in idle", desk.commit());
    tell("edge=3 begin", desk.begin());
    tell("edge=3 read in run", desk.read(0));
    tell("edge=3 write in run", desk.write(0, 7));
    tell("edge=3 commit in run", desk.commit());
    tell("edge=3 force after it", desk.force());
}

// 5: the journal's last rows, by writes.
fn five() {
    let mut desk = open("edge=5 begin");
    tell("edge=5 write l-h=0", desk.write(0, 7));
    tell("edge=5 write l-h=1", desk.write(0, 7));
    tell("edge=5 write l-h=2", desk.write(0, 7));
    tell("edge=5 write l-h=3", desk.write(0, 7));
    tell("edge=5 commit l-h=3", desk.commit());
    tell("edge=5 begin l-h=4", desk.begin());
}

// 5: by ends, in idle and in run.
fn five_ends() {
    let mut desk = open("edge=5 begin");
    tell("edge=5 begin in run l-h=0", desk.begin());
    tell("edge=5 begin in run l-h=1", desk.begin());
    tell("edge=5 begin in run l-h=2", desk.begin());
    tell("edge=5 begin in run l-h=3", desk.begin());
    tell("edge=5 abort l-h=3", desk.abort());
}

fn five_idle() {
    let mut desk = open("edge=5 begin");
    tell("edge=5 write", desk.write(0, 7));
    tell("edge=5 write", desk.write(1, 7));
    tell("edge=5 commit", desk.commit());
    tell("edge=5 begin l-h=3", desk.begin());
}

// 7: a waiting row damaged and made whole again, for abort, begin, commit and force.
fn seven() {
    let mut desk = open("edge=7 begin");
    tell("edge=7 write", desk.write(0, 7));
    desk.waiting[4] = 4;
    tell("edge=7 abort kind=4", desk.abort());
    tell("edge=7 begin in run kind=4", desk.begin());
    tell("edge=7 commit kind=4", desk.commit());
    tell("edge=7 force kind=4", desk.force());
    desk.waiting[4] = 1;
    tell("edge=7 force kind=1", desk.force());
    tell("edge=7 abort kind=1", desk.abort());
}

// A keeper in run, with both cells written.
fn two_written() -> SmallDesk {
    let mut desk = open("edge=7 begin");
    tell("edge=7 write", desk.write(0, 7));
    tell("edge=7 write", desk.write(1, 7));
    desk
}

// 7: of two damaged rows the lower is named, and by force the one that it would store.
fn seven_lowest() {
    let mut desk = two_written();
    desk.waiting[40] = 2;
    tell("edge=7 abort entry 2 cell=2", desk.abort());
    tell("edge=7 force entry 1", desk.force());
    tell("edge=7 force entry 2 cell=2", desk.force());
    desk.waiting[12] = 1;
    tell("edge=7 abort entry 1 filler=1", desk.abort());
    tell(
        "edge=7 commit entry 1 stored, entry 2 cell=2",
        desk.commit(),
    );
    desk.waiting[40] = 1;
    tell(
        "edge=7 commit entry 1 stored, entry 2 cell=1",
        desk.commit(),
    );
}

// 7: of two damaged rows that are not stored commit names the lower, and then the other.
fn seven_commit() {
    let mut desk = two_written();
    desk.waiting[40] = 2;
    desk.waiting[12] = 1;
    tell("edge=7 commit entry 1 filler=1", desk.commit());
    desk.waiting[12] = 0;
    tell("edge=7 commit entry 2 cell=2", desk.commit());
    desk.waiting[40] = 1;
    tell("edge=7 commit", desk.commit());
    tell("edge=7 force after it", desk.force());
}

// 7: an end among the open rows.
fn seven_end() {
    let mut desk = open("edge=7 begin");
    tell("edge=7 write", desk.write(0, 7));
    desk.waiting[4] = 2;
    tell("edge=7 abort kind=2 new=7", desk.abort());
    desk.waiting[24] = 0;
    tell("edge=7 abort kind=2 new=0", desk.abort());
    tell("edge=7 begin in run kind=2 new=0", desk.begin());
    let mut other = desk;
    tell("edge=7 force kind=2 new=0", other.force());
    tell("edge=7 commit kind=2 new=0", desk.commit());
}

// Cell 0 written and committed, not written back.
fn stored(what: &str) -> SmallDesk {
    let mut desk = open(what);
    tell(what, desk.write(0, 7));
    tell(what, desk.commit());
    desk
}

// 7 for cut: the medium's row of p.
fn seven_cut() {
    let mut desk = stored("edge=7 stored");
    tell("edge=7 write-back", desk.write_back(0));
    desk.medium[68] = 4;
    tell("edge=7 cut p=2 kind=4", desk.cut(2));
    desk.medium[68] = 2;
    tell("edge=7 cut p=2 kind=2", desk.cut(2));
}

// 8: `last` above f, and not.
fn eight() {
    let mut desk = open("edge=8 begin");
    tell("edge=8 write", desk.write(0, 7));
    tell("edge=8 write-back f=0", desk.write_back(0));
    tell("edge=8 force", desk.force());
    tell("edge=8 write-back f=1", desk.write_back(0));
    tell("edge=8 write-back again", desk.write_back(0));
}

// 9: p's range, an update, and a cell that is not written back.
fn nine() {
    let mut desk = stored("edge=9 stored");
    tell("edge=9 cut p=2 first=1", desk.cut(2));
    tell("edge=9 write-back", desk.write_back(0));
    tell("edge=9 cut p=3 above f", desk.cut(3));
    tell("edge=9 cut p=1 an update", desk.cut(1));
    tell("edge=9 cut p=2", desk.cut(2));
    tell("edge=9 cut p=1 below h", desk.cut(1));
    tell("edge=9 cut p=2 again", desk.cut(2));
}

// 9: above o, the last entry before the open transaction.
fn nine_open() {
    let mut desk = open("edge=9 begin");
    tell("edge=9 begin in run", desk.begin());
    tell("edge=9 write", desk.write(0, 7));
    tell("edge=9 force", desk.force());
    tell("edge=9 force", desk.force());
    tell("edge=9 cut p=2 above o", desk.cut(2));
    tell("edge=9 cut p=1", desk.cut(1));
}

// 10: recovering and not.
fn ten() {
    let mut desk = SmallDesk::fresh();
    tell("edge=10 step in idle", desk.step());
    tell("edge=10 begin in idle", desk.begin());
    tell("edge=10 step in run", desk.step());
    tell("edge=10 start", desk.start());
    tell("edge=10 begin in recovering", desk.begin());
    tell("edge=10 force in recovering", desk.force());
    tell("edge=10 look in recovering", desk.look(1));
    tell("edge=10 step in recovering", desk.step());
}

// 11: the entries that there are.
fn eleven() {
    let mut desk = open("edge=11 begin");
    tell("edge=11 write", desk.write(0, 7));
    tell("edge=11 force", desk.force());
    tell("edge=11 write", desk.write(0, 7));
    tell("edge=11 look n=h=0", desk.look(0));
    tell("edge=11 look n=f=1", desk.look(1));
    tell("edge=11 look n=l=2", desk.look(2));
    tell("edge=11 look n=3", desk.look(3));
}

fn low() {
    one();
    three();
    five();
    five_ends();
    five_idle();
}

fn high() {
    seven();
    seven_lowest();
    seven_commit();
    seven_end();
    seven_cut();
    eight();
    nine();
    nine_open();
    ten();
    eleven();
}

fn main() {
    low();
    high();
}
