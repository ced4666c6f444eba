// What the plug knows of a history without asking the keeper: the table as the stored transactions left it, and the writes of this life. A
// transaction counts as stored when the row of the number that its commit answered is; nothing here reads a row.
#![tactic(auto)]

pub mod image;

ghost use Rattle.std.specs.Prelude.{◌≡◌, ◌≢◌, ◌+◌, ◌*◌, ◌/◌, ◌%◌, ◌<◌, ◌≤◌, ◌↔◌, IsTrue, IsFalse, Some, None, min, [], ◌∷◌, ◌++◌, All, Any, replicate, slice_index};
ghost use Rattle.arrayvec.specs.ArrayVec.{array_vec_len};

use arrayvec::ArrayVec;
use image::MOST_CELLS;

// What a tally counts to, and stays at.
pub const MOST: u64 = 1_000_000_000;

// How many writes of one life are listed.
pub const MOST_WRITES: usize = 128;

// How often something was tried, or differed.
#[derive(Clone, Copy, Debug, Default, PartialEq, Eq)]
pub struct Tally {
    pub number: u64,
}

impl Tally {
    // One more.
    pub fn count(&mut self)
        ensures { self.old.number ≤ MOST → self.new.number ≡ min (self.old.number + 1) MOST }
    {
        if self.number < MOST {
            self.number += 1;
        }
    }
}

// What came of a write: its transaction is open, or its commit answered this number; gone is what was aborted, or is stored and in the table.
#[derive(Clone, Copy, Debug, Default, PartialEq, Eq)]
pub enum Fate {
    Open,
    Committed(u64),
    #[default]
    Gone,
}

#[derive(Clone, Copy, Debug, Default, PartialEq, Eq)]
pub struct Write {
    pub cell: u32,
    pub value: u64,
    pub fate: Fate,
}

// A call where a keeper that goes wrong would show it.
#[derive(Clone, Copy, Debug, PartialEq, Eq)]
pub enum Likely {
    WriteBack,
    Abort,
    Cut,
}

#[derive(Drop)]
pub struct Book {
    // The generator's last number.
    pub seed: u32,
    pub histories: Tally,
    pub calls: Tally,
    pub refused: Tally,
    pub stores: Tally,
    pub cuts: Tally,
    pub recoveries: Tally,
    pub restored: Tally,
    // Rows lost before others, and last rows lost.
    pub holes: Tally,
    pub ends: Tally,
    // Histories in which something differed, and how much differed.
    pub struck: Tally,
    pub differences: Tally,
    // The call that is likely next, and the cell of the last write.
    pub likely: Option<Likely>,
    pub written: Option<u32>,
    // The table as the stored transactions left it, and the writes of this life.
    pub table: [u64; MOST_CELLS],
    pub writes: ArrayVec<Write, MOST_WRITES>,
}

impl Book {
    // No history yet.
    pub fn new(seed: u32) -> Self
        ensures seed { result.seed ≡ seed }
        ensures differences { result.differences.number ≡ 0 }
        ensures writes { result.writes.items ≡ [] }
    {
        Book {
            seed,
            histories: Tally::default(),
            calls: Tally::default(),
            refused: Tally::default(),
            stores: Tally::default(),
            cuts: Tally::default(),
            recoveries: Tally::default(),
            restored: Tally::default(),
            holes: Tally::default(),
            ends: Tally::default(),
            struck: Tally::default(),
            differences: Tally::default(),
            likely: None,
            written: None,
            table: [0; MOST_CELLS],
            writes: ArrayVec::new(),
        }
    }

    // A difference, where a check failed.
    pub fn judge(&mut self, ok: bool)
        ensures held { IsTrue ok → self.new ≡ self.old }
        ensures failed { IsFalse ok → self.old.differences.number < MOST → self.new.differences.number ≡ self.old.differences.number + 1 }
    {
        if !ok {
            self.differences.count();
        }
    }

    // The next number of a linear congruential generator, below 32,768.
    pub fn draw(&mut self) -> u32
        ensures seed { self.new.seed ≡ (self.old.seed * 1103515245 + 12345) % 2147483648 }
        ensures drawn { result ≡ self.new.seed / 65536 }
        ensures below { result < 32768 }
    {
        let next = (u64::from(self.seed) * 1_103_515_245 + 12_345) % 2_147_483_648;
        self.seed = next as u32;
        self.seed / 65_536
    }

    // A drawn number below n; 0 below 0.
    pub fn below(&mut self, n: u32) -> u32
        ensures drawn { 0 < n → result ≡ self.new.seed / 65536 % n }
        ensures below { 0 < n → result < n }
        ensures none { n ≡ 0 → result ≡ 0 }
    {
        let drawn = self.draw();
        drawn.checked_rem(n).unwrap_or(0)
    }

    // Heads or tails.
    pub fn flip(&mut self) -> bool
        ensures { IsTrue result ↔ (self.new.seed / 65536 % 2 ≡ 0) }
    {
        self.below(2) == 0
    }

    // A cell's value: one of few parts, so that values come again, and any release.
    pub fn value(&mut self) -> u64
        ensures part { result % 4294967296 < 5 }
        ensures major { result / 4294967296 % 65536 < 3 }
        ensures minor { result / 281474976710656 < 12 }
    {
        let part = self.below(5);
        let major = self.below(3);
        let minor = self.below(12);
        u64::from(part) + 4_294_967_296 * u64::from(major) + 281_474_976_710_656 * u64::from(minor)
    }

    // A cell of the table of stored transactions; 0 of a cell that no medium has.
    pub fn stored(&self, cell: u32) -> u64
        ensures { result ≡ slice_index self.now.table cell }
    {
        self.table.get(cell as usize).copied().unwrap_or(0)
    }

    // A write of the open transaction, accepted.
    pub fn wrote(&mut self, cell: u32, value: u64)
        ensures written { self.new.written ≡ Some cell }
        ensures listed { array_vec_len self.old.writes < MOST_WRITES → self.new.writes.items ≡ self.old.writes.items ++ record { cell = cell; value = value; fate = Fate.Open } ∷ [] }
    {
        self.written = Some(cell);
        if !self.writes.is_full() {
            self.writes.push(Write {
                cell,
                value,
                fate: Fate::Open,
            });
        }
    }

    fn end_open(&mut self, fate: Fate)
        requires { fate ≢ Fate.Open }
        ensures { All (λ w. w.fate ≢ Fate.Open) self.new.writes.items }
    {
        for write in self.writes.iter_mut() {
            if write.fate == Fate::Open {
                write.fate = fate;
            }
        }
    }

    // The open transaction's commit answered n.
    pub fn committed(&mut self, n: u64)
        ensures { All (λ w. w.fate ≢ Fate.Open) self.new.writes.items }
    {
        self.end_open(Fate::Committed(n));
    }

    // The open transaction was aborted.
    pub fn aborted(&mut self)
        ensures { All (λ w. w.fate ≢ Fate.Open) self.new.writes.items }
    {
        self.end_open(Fate::Gone);
    }

    // Entry n's row is stored: a transaction whose commit had answered n now counts, and the table has its writes.
    pub fn forced(&mut self, n: u64)
        ensures { All (λ w. w.fate ≢ Fate.Committed n) self.new.writes.items }
    {
        for write in self.writes.iter_mut() {
            if write.fate == Fate::Committed(n) {
                if let Some(value) = self.table.get_mut(write.cell as usize) {
                    *value = write.value;
                }
                write.fate = Fate::Gone;
            }
        }
    }

    // What a read of the cell is to answer: the last write of it that is not gone, else the table's value.
    pub fn current(&self, cell: u32) -> u64
        ensures unnamed { All (λ w. w.cell ≢ cell) self.now.writes.items → result ≡ slice_index self.now.table cell }
        ensures gone { All (λ w. w.fate ≡ Fate.Gone) self.now.writes.items → result ≡ slice_index self.now.table cell }
    {
        let last = self
            .writes
            .iter()
            .rev()
            .find(|write| write.cell == cell && write.fate != Fate::Gone);
        last.map_or(self.stored(cell), |write| write.value)
    }

    // Whether a write of this life named the cell.
    pub fn named(&self, cell: u32) -> bool
        ensures { IsTrue result ↔ Any (λ w. w.cell ≡ cell) self.now.writes.items }
    {
        self.writes.iter().any(|write| write.cell == cell)
    }

    // Power was lost and recovery has ended: what was not stored is forgotten.
    pub fn forget(&mut self)
        ensures writes { self.new.writes.items ≡ [] }
        ensures table { self.new.table ≡ self.old.table }
    {
        self.writes.clear();
    }

    // A new medium: an empty table and no writes.
    pub fn fresh(&mut self)
        ensures writes { self.new.writes.items ≡ [] }
        ensures table { self.new.table ≡ replicate 32 0 }
        ensures likely { self.new.likely ≡ None }
        ensures written { self.new.written ≡ None }
    {
        self.forget();
        self.likely = None;
        self.written = None;
        self.table = [0; MOST_CELLS];
    }
}
