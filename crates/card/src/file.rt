// The medium's file: the medium, byte for byte. A store is brought to its own place and synced before the call is answered.
ghost use Rattle.std.specs.Prelude.{◌≡◌};
ghost use Rattle.keeper.specs.Answers.{handed};
ghost use Rattle.console.specs.Made.{call_of, Made};

use crate::desk::Desk;
use console::{Call, Did, Place};
use keeper::State;
use orders::say::Cause;
use orders::show;
use state::{Numbers, Phase};
use std::fs::{File, OpenOptions};
use std::io::{ErrorKind, Seek, SeekFrom};
use std::os::fd::AsRawFd;
use std::os::unix::fs::FileExt;
use std::rt::HostRuntime;

// The state of all zeros, with which every call but start is refused.
const ZEROS: State = State {
    numbers: Numbers {
        cells: 0,
        slots: 0,
        h: 0,
        f: 0,
        l: 0,
        o: 0,
    },
    phase: Phase::Idle,
};

// The keeper's state, the medium's file, and its length.
#[derive(Drop)]
pub struct Session {
    pub state: State,
    pub file: File,
    pub size: usize,
}

// Why a file stays as it is: sizes out of range; a length that is not what it was when it was opened; neither empty nor a medium; a medium
// that the order does not say may be erased. Or the file did not take what was stored.
#[derive(Clone, Copy)]
pub enum Unformatted {
    Sizes,
    OtherLength,
    NoMedium,
    Medium,
    File(std::io::Error),
}

impl From<std::io::Error> for Unformatted {
    fn from(error: std::io::Error) -> Unformatted {
        Unformatted::File(error)
    }
}

// A file to read and write.
fn opened(rt: HostRuntime, path: &str) -> std::io::Result<File> {
    OpenOptions::new().read(true).write(true).open(&rt, path)
}

impl Session {
    // Opens the file, before recovery; nothing of it is read yet, and nothing is stored.
    pub fn open(rt: HostRuntime, path: &str) -> std::io::Result<Session> {
        Ok(Session {
            state: ZEROS,
            file: opened(rt, path)?,
            size: 0,
        })
    }

    // Reads the file that was just opened, as many bytes as the medium's image holds.
    pub fn read(&mut self, medium: &mut [u8]) {
        self.size = io::read_full(self.file.as_raw_fd(), medium);
    }

    // Makes the file, empty; a name that is taken is refused.
    pub fn create(rt: HostRuntime, path: &str) -> std::io::Result<Session> {
        OpenOptions::new()
            .write(true)
            .create_new(true)
            .open(&rt, path)?;
        Session::open(rt, path)
    }

    // A call, made on what is lent; what it stored is not in the file yet.
    pub fn make(&mut self, call: Call, desk: &mut Desk<'_>) -> Did
        ensures state { self.new.state ≡ result.state }
        ensures made { let before = handed self.old.state desk.old.medium.now desk.old.current.now desk.old.first.now desk.old.last.now desk.old.waiting.now in
            let after = handed result.state desk.new.medium.now desk.new.current.now desk.new.first.now desk.new.last.now desk.new.waiting.now in
            Made (call_of call) before result after }
    {
        let did = desk.make(self.state, call);
        self.state = did.state;
        did
    }

    // Bytes stored at their place in the file by one write, and synced.
    fn store(&self, part: &[u8], at: usize) -> std::io::Result<()> {
        let put = self.file.write_at(part, at as u64)?;
        if put < part.len() {
            return Err(ErrorKind::WriteZero.into());
        }
        self.file.sync_all()
    }

    // What a call stored, brought to the file.
    pub fn bring(&self, medium: &[u8], place: Option<Place>) -> std::io::Result<()> {
        let Some(place) = place else {
            return Ok(());
        };
        match medium.get(place.at..) {
            Some(rest) => match rest.get(..place.size) {
                Some(part) => self.store(part, place.at),
                None => Err(ErrorKind::InvalidInput.into()),
            },
            None => Err(ErrorKind::InvalidInput.into()),
        }
    }

    // An empty file may be touched; a medium, where the order says so in words. Anything else stays as it is.
    fn may_touch(&mut self, erase: bool, medium: &[u8]) -> Result<(), Unformatted> {
        match show::cause(medium, self.size) {
            Cause::NoMedium => return Err(Unformatted::NoMedium),
            Cause::NoRecovery if !erase => return Err(Unformatted::Medium),
            Cause::Empty | Cause::NoRecovery => {}
        }
        match self.file.seek(SeekFrom::End(0)) {
            Ok(end) if end == self.size as u64 => Ok(()),
            _ => Err(Unformatted::OtherLength),
        }
    }

    // Format: the only order that stores more than one head, row or cell. The file is cut or stretched to the medium's length.
    pub fn format(
        &mut self,
        cells: u32,
        slots: u32,
        erase: bool,
        medium: &mut [u8],
    ) -> Result<(), Unformatted> {
        if !medium::layout::in_range(cells, slots) {
            return Err(Unformatted::Sizes);
        }
        self.may_touch(erase, medium)?;
        let size = medium::layout::medium_length(cells, slots);
        let Some(medium) = medium.get_mut(..size) else {
            return Err(Unformatted::Sizes);
        };
        medium::head::format(medium, cells, slots).map_err(|_| Unformatted::Sizes)?;
        self.file.set_len(size as u64)?;
        self.store(medium, 0)?;
        self.state = ZEROS;
        self.size = size;
        Ok(())
    }
}
