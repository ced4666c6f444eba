// A month's end: the non-empty cells of many recovered media, counted by release. The first 64 releases met have counts of their own, in the order met.
#![tactic(auto)]

mod releases;

ghost use Rattle.std.specs.Prelude.{◌≡◌, ◌==◌, position};
ghost use Rattle.months.specs.Releases.{in_use};
ghost use Rattle.months.specs.Month.{more, release_of, untallied, tally, add_cell, add_cells, add_medium};

use recovered::head_number;
pub use releases::Releases;
use values::values;

// A release that was met, as one number, and how many cells have it.
#[derive(Clone, Copy, Default)]
pub struct Met {
    pub release: u32,
    pub count: u64,
}

impl Met {
    // With one more cell.
    #[tactic(auto, using(crate::proofs::Adding::more_saturating))]
    fn again(self) -> Self
        ensures { result ≡ record { release = self.release; count = more self.count } }
    {
        Met {
            count: self.count.saturating_add(1),
            ..self
        }
    }
}

// How many files were named, how many of them refused, how many cells counted, the releases that have counts, and how many cells have others.
#[derive(Clone, Copy)]
pub struct Month {
    pub stores: u64,
    pub refused: u64,
    pub cells: u64,
    pub met: Releases,
    pub others: u64,
}

// A cell's release as one number, the major before the minor. `counter::release` is it in 64 bits: one line each, and a month has no counter to stand on.
#[tactic(auto, unfolding(crate::specs::Month::release_of))]
fn release_of(value: u64) -> u32
    ensures { result ≡ release_of value }
{
    let major = (value / 4294967296 % 65536) as u32;
    let minor = (value / 281474976710656 % 65536) as u32;
    65536 * major + minor
}

// Where a release stands among these.
pub fn place_of(met: &[Met], release: u32) -> Option<usize>
    ensures { result ≡ position (λ c. c.release == release) met.now }
{
    met.iter().position(|counted| counted.release == release)
}

impl Month {
    // Before any file.
    pub fn new() -> Self
        ensures { tally result ≡ untallied }
    {
        Month {
            stores: 0,
            refused: 0,
            cells: 0,
            met: Releases::new(),
            others: 0,
        }
    }

    // Where a release stands among those met.
    pub fn place_of(&self, release: u32) -> Option<usize>
        ensures { result ≡ position (λ c. c.release == release) (in_use self.now.met) }
    {
        place_of(self.met.as_slice(), release)
    }

    // A cell counted; an empty one is not.
    #[tactic(auto, using(crate::proofs::Adding::cell_empty))]
    fn add_cell(&mut self, value: u64)
        ensures { tally self.new ≡ add_cell value (tally self.old) }
    {
        if value == 0 {
            return;
        }
        let release = release_of(value);
        self.cells = self.cells.saturating_add(1);
        match self.place_of(release) {
            Some(place) => {
                let counted = self.met.as_slice()[place].again();
                self.met.replace(place, counted);
            }
            None if self.met.is_full() => self.others = self.others.saturating_add(1),
            None => self.met.push(Met { release, count: 1 }),
        }
    }

    // All cells of a table, by rising number.
    fn add_cells(&mut self, current: &[u64])
        ensures { tally self.new ≡ add_cells current.now (tally self.old) }
    {
        for value in current {
            self.add_cell(*value);
        }
    }

    // One more file, by its bytes: its recovered cells are counted, or it is refused. The medium is recovered in memory of its own. Goes over the entries
    // that count twice, over the table twice, and for each cell over the releases met.
    pub fn add_medium(&mut self, medium: &[u8])
        ensures { tally self.new ≡ add_medium medium.now (tally self.old) }
    {
        self.stores = self.stores.saturating_add(1);
        let mut table = [0; 1024];
        let current = &mut table[..head_number(medium, 0)];
        match values(medium, current) {
            Ok(()) => self.add_cells(current),
            Err(_) => self.refused = self.refused.saturating_add(1),
        }
    }
}
