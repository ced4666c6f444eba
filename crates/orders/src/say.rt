// What the terminal writes. The last line of each reply begins with answer=, refused= or error=; a line for people begins with #. A
// person at a keyboard gets a prompt and hints besides; a script gets neither. What writes a reply answers whether its last part was taken.
use crate::{Kind, Wrong};
use answer::Refusal;
use std::io::IsTerminal;
use std::rt::HostRuntime;

// Standard output's descriptor.
pub const STDOUT_FILENO: i32 = 1;

// Why a call was refused with 1: the file is empty, or no medium, or no recovery has run on it.
#[derive(Clone, Copy, Debug, PartialEq, Eq)]
pub enum Cause {
    Empty,
    NoMedium,
    NoRecovery,
}

pub fn say(text: &[u8]) -> bool {
    io::write_all(STDOUT_FILENO, text)
}

pub fn pair(name: &[u8], n: u64) -> bool {
    say(name);
    io::print_decimal(STDOUT_FILENO, n);
    say(b"\n")
}

// Whether a person is at the keyboard.
fn at_keyboard(rt: HostRuntime) -> bool {
    rt.stdin().is_terminal()
}

pub fn prompt(rt: HostRuntime) {
    hint(rt, b"keeper> ");
}

// A line that only a person at the keyboard gets.
pub fn hint(rt: HostRuntime, text: &[u8]) {
    if at_keyboard(rt) {
        say(text);
    }
}

// Refusal 1, with its cause.
pub fn unfit(why: Cause) -> bool {
    match why {
        Cause::Empty => say(b"# the file is empty: format CELLS ROWS is next\nrefused=1\n"),
        Cause::NoMedium => say(
            b"# the file is no medium: its length or its head is not that of one\nrefused=1\n",
        ),
        Cause::NoRecovery => say(
            b"# no recovery has run on this medium: start, or open it again\nrefused=1\n",
        ),
    }
}

pub fn sizes() -> bool {
    say(b"# sizes out of rule: CELLS is 1 to 1024, ROWS is 4 to 1024\nrefused=1\n")
}

// What a refusal says: of 2 and 7 what is wrong with the row.
fn meaning(why: Refusal) -> bool {
    match why {
        Refusal::Malformed(fault) | Refusal::BadRow(fault) => {
            say(b"# ");
            faults::print(fault);
            say(b"\n")
        }
        Refusal::Unfit | Refusal::NoCell => say(b"# no such cell\n"),
        Refusal::NoTransaction => say(b"# no transaction is open: begin first\n"),
        Refusal::Full => say(b"# the journal is full: force, back and cut make room\n"),
        Refusal::UsedUp => say(b"# the entry numbers are used up\n"),
        Refusal::NotStored => say(b"# the cell's last entry is not stored yet: force first\n"),
        Refusal::NotACut => say(
            b"# not a place to cut at: an update, out of range, or a cell that is not written back\n",
        ),
        Refusal::WrongPhase => say(
            b"# recovery is not at its end, or not begun: start, then step\n",
        ),
        Refusal::NoEntry | Refusal::NoPart => say(b"# no such entry in the journal\n"),
    }
}

// A refusal other than 1, in words and by its number.
pub fn refused(why: Refusal) -> bool {
    meaning(why);
    pair(b"refused=", u64::from(why.number()))
}

// A cell's value, in the listing's form.
pub fn value(v: u64) {
    pair(b"part=", v % 4294967296);
    say(b"release=");
    io::print_decimal(STDOUT_FILENO, v / 4294967296 % 65536);
    pair(b".", v / 281474976710656);
}

// How an order is written, where its words were wrong.
fn form(kind: Kind) -> bool {
    match kind {
        Kind::Write => say(b"# expected: write CELL PART MAJOR.MINOR, as in write 0 40017 1.9\n"),
        Kind::Format => say(
            b"# expected: format CELLS ROWS, as in format 2 4; with the word erase after them where a table may be erased\n",
        ),
        Kind::Open => say(b"# expected: open FILE, a name without spaces\n"),
        Kind::New => say(b"# expected: new FILE, a name without spaces\n"),
        Kind::Read | Kind::Back | Kind::Cut | Kind::Look => say(
            b"# expected: one number below 4294967296, as in read 0, back 0, cut 2, look 3\n",
        ),
        _ => say(b"# expected: this word and nothing after it\n"),
    }
}

// What is wrong with a line, and what was expected.
pub fn usage(wrong: Wrong) -> bool {
    match wrong {
        Wrong::Word => say(
            b"# expected: new open format start step recover begin write read commit store force back cut abort look list help quit\nerror=word\n",
        ),
        Wrong::Line => say(b"# expected: a line of at most 4200 bytes\nerror=line\n"),
        Wrong::Words(kind) => {
            form(kind);
            say(b"error=words\n")
        }
    }
}

pub fn help() -> bool {
    say(
        b"# new FILE makes an empty file; format CELLS ROWS makes it a medium; open FILE opens one and starts recovery;\n",
    );
    say(b"# recover takes recovery to its end; start begins it again; step takes one step;\n");
    say(b"# begin; write CELL PART MAJOR.MINOR; read CELL; commit; abort;\n");
    say(
        b"# store stores every entry that waits; force stores one; back CELL stores a cell; cut ENTRY stores the head;\n",
    );
    say(b"# look ENTRY; list; quit\nanswer=0\n")
}

pub fn no_file() -> bool {
    say(b"# no file is open: open FILE, or new FILE, first\nerror=file\n")
}
