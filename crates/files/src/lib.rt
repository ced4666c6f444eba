// Files that a program is told of by name.
#![tactic(auto)]

ghost use Rattle.io.specs.Counts.{IsPrefixLen};

use std::fs::File;
use std::os::fd::AsRawFd;
use std::rt::HostRuntime;

// Reads the file of this name from its beginning, as many bytes as the image holds, and answers how many; 0 where it can't be opened or read.
// A name that is no text is that of no file. (No Option: each caller takes such a file for one of no bytes, and would write `unwrap_or(0)`.)
pub fn read_file(rt: HostRuntime, name: &[u8], image: &mut [u8]) -> usize
    ensures { IsPrefixLen result image.new }
{
    let Ok(path) = std::str::from_utf8(name) else {
        return 0;
    };
    let Ok(file) = File::open(&rt, path) else {
        return 0;
    };
    io::read_full(file.as_raw_fd(), image)
}
