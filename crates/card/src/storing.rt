// Rows brought to the file: a commit's, one by one; and those of every entry that waits, of which those that follow one another in one
// 512-byte sector are brought by one write and one sync, for a card that keeps a sector whole (docs/PLUG.md). The file has all of them before
// the order is answered.
use crate::desk::Desk;
use crate::file::Session;
use answer::Refusal;
use console::{Call, Place, Said};
use std::io::ErrorKind;

const SECTOR: usize = 512;

// The most rows that a journal has.
const MOST_ROWS: u32 = 1024;

// Why not every entry that waits was stored: force was refused, or the file did not take a row.
#[derive(Clone, Copy)]
pub enum Unstored {
    Refused(Refusal),
    File(std::io::Error),
}

impl From<std::io::Error> for Unstored {
    fn from(error: std::io::Error) -> Unstored {
        Unstored::File(error)
    }
}

// The part of the medium from the first of two places to the end of the last.
fn joined(a: Place, b: Place) -> Place {
    let at = a.at.min(b.at);
    let end = a.at.saturating_add(a.size).max(b.at.saturating_add(b.size));
    Place {
        at,
        size: end.saturating_sub(at),
    }
}

impl Session {
    // The row of the entry after n, brought and synced.
    fn bring_row(&self, medium: &[u8], n: u32) -> std::io::Result<()> {
        let slots = self.state.numbers.slots;
        if slots == 0 {
            return Err(ErrorKind::InvalidInput.into());
        }
        let at = journal::first_row(slots, n);
        self.bring(medium, Some(Place { at, size: 32 }))
    }

    // A commit's rows, those of the entries after `from` up to `to`, in that order, each synced before the next.
    pub fn bring_rows(&self, medium: &[u8], from: u32, to: u32) -> std::io::Result<()> {
        for n in from..to {
            self.bring_row(medium, n)?;
        }
        Ok(())
    }

    // The rows that are held, with one more beside those of its sector; those of another are brought first.
    fn hold(&self, medium: &[u8], held: Option<Place>, row: Place) -> std::io::Result<Place> {
        match held {
            Some(rows) if rows.at / SECTOR == row.at / SECTOR => Ok(joined(rows, row)),
            _ => {
                self.bring(medium, held)?;
                Ok(row)
            }
        }
    }

    // Every entry that waits is stored and in the file: the last one's number, or 0 where none waited.
    pub fn store_rows(&mut self, desk: &mut Desk<'_>) -> Result<u64, Unstored> {
        let mut number = 0;
        let mut held = None;
        for _ in 0..=MOST_ROWS {
            let did = self.make(Call::Force, desk);
            let Some(row) = did.place else {
                self.bring(desk.medium, held)?;
                did.said.map_err(Unstored::Refused)?;
                return Ok(number);
            };
            if let Ok(Said::Plain(n)) = did.said {
                number = n;
            }
            held = Some(self.hold(desk.medium, held, row)?);
        }
        self.bring(desk.medium, held)?;
        Ok(number)
    }
}
