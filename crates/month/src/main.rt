// Month's end over all branches: file names from standard input, one a line; stores, refused, cells, the releases by rising number with their counts, and
// others to standard output. Each file's bytes go into the month by `Month::add_medium`, and what is printed is `month_text::put_month`.
#![tactic(auto)]

ghost use Rattle.io.specs.Counts.{IsPrefixLen};

use arrayvec::ArrayVec;
use months::Month;
use std::rt::HostRuntime;

// No file's name is longer.
const LONGEST: usize = 4096;

// Reads a line of standard input, without its newline, and answers whether a newline ended it. Of a line that is too long for a name the first bytes are kept,
// one more than a name has.
fn read_line(line: &mut ArrayVec<u8, 4097>) -> bool {
    line.clear();
    for _ in 0..u64::MAX {
        let mut byte = [0];
        if io::read_full(0, &mut byte) == 0 {
            return false;
        }
        if byte[0] == b'\n' {
            return true;
        }
        let _ = line.try_push(byte[0]);
    }
    false
}

// The name on a line: of one that a CR LF ended it's what stands before the CR.
fn name_on(line: &[u8], ended: bool) -> &[u8] {
    match line.strip_suffix(b"\r") {
        Some(name) if ended && line.len() <= LONGEST => name,
        _ => line,
    }
}

// The bytes of the file of this name; none of a name that is too long for any file.
fn read_medium(rt: HostRuntime, name: &[u8], image: &mut [u8]) -> usize
    ensures { IsPrefixLen result image.new }
{
    if name.len() <= LONGEST {
        files::read_file(rt, name, image)
    } else {
        0
    }
}

// One more file; an empty line names none.
fn add_named(rt: HostRuntime, name: &[u8], image: &mut [u8], month: &mut Month) {
    if !name.is_empty() {
        let size = read_medium(rt, name, image);
        month.add_medium(&image[..size]);
    }
}

// The image is one byte longer than the largest medium, so that an overlong one is seen and refused; `files` fills it and answers how much of it.
fn main(rt: HostRuntime) {
    let mut image = [0; 40993];
    let mut line = ArrayVec::new();
    let mut month = Month::new();
    for _ in 0..u64::MAX {
        let ended = read_line(&mut line);
        add_named(rt, name_on(&line, ended), &mut image, &mut month);
        if !ended {
            break;
        }
    }
    io::write_all(1, month_text::put_month(&month).bytes());
}
