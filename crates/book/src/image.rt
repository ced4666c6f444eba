// Media as bytes: what one has, and what differs between two.
ghost use Rattle.std.specs.Prelude.{◌≡◌, ◌≢◌, ◌+◌, ◌*◌, ◌<◌, ◌≤◌, ◌↔◌, IsTrue, min, length, take, drop, ◌++◌, replicate, EachIndex, slice_index};
ghost use Rattle.scope.specs.Bytes.{number_at};
ghost use Rattle.scope.specs.Calls.{act};
ghost use Rattle.scope.specs.Keeper.{part_of, row_at};
ghost use Rattle.scope.specs.Refusals.{TableView};
ghost use Rattle.medium.specs.Lent.{on_medium};

// The most cells and rows that a made-up medium has, and the bytes of one with as many.
pub const MOST_CELLS: usize = 32;

pub const MOST_ROWS: usize = 32;

pub const MOST_BYTES: usize = 1312;

// A medium of N cells and C rows, at the front of `bytes`: the head, the rows, the cells.
#[derive(Clone, Copy)]
pub struct Image {
    pub bytes: [u8; MOST_BYTES],
    pub cells: u32,
    pub slots: u32,
}

impl Image {
    // A medium of zeros.
    pub fn blank(cells: u32, slots: u32) -> Self
        ensures { result ≡ record { bytes = replicate 1312 0; cells = cells; slots = slots } }
    {
        Image {
            bytes: [0; MOST_BYTES],
            cells,
            slots,
        }
    }

    // How many cells, rows and bytes it has.
    pub fn cell_count(&self) -> usize
        ensures { result ≡ min self.now.cells 32 }
    {
        (self.cells as usize).min(MOST_CELLS)
    }

    pub fn row_count(&self) -> usize
        ensures { result ≡ min self.now.slots 32 }
    {
        (self.slots as usize).min(MOST_ROWS)
    }

    pub fn size(&self) -> usize
        ensures { result ≡ 32 + 32 * min self.now.slots 32 + 8 * min self.now.cells 32 }
    {
        32 + 32 * self.row_count() + 8 * self.cell_count()
    }

    pub fn medium(&self) -> &[u8]
        ensures { result.now ≡ take (32 + 32 * min self.now.slots 32 + 8 * min self.now.cells 32) self.now.bytes }
    {
        &self.bytes[..self.size()]
    }

    // How many of head, rows and cells differ.
    pub fn stores_since(&self, before: &Image) -> usize
        ensures { take 32 self.now.bytes ≢ take 32 before.now.bytes → 0 < result }
    {
        let cells = 32 + 32 * self.row_count();
        let size = self.size();
        let head = usize::from(self.bytes[..32] != before.bytes[..32]);
        let rows = differing(&self.bytes[32..cells], &before.bytes[32..cells], 32);
        head + rows + differing(&self.bytes[cells..size], &before.bytes[cells..size], 8)
    }

    // Whether all that differs lies within `size` bytes from `at` on.
    pub fn differs_within(&self, before: &Image, at: usize, size: usize) -> bool
        ensures { IsTrue result ↔ EachIndex self.now.bytes (λ i. slice_index self.now.bytes i ≢ slice_index before.now.bytes i → (at ≤ i) × (i < at + size)) }
    {
        let mut pairs = self.bytes.iter().zip(before.bytes.iter()).enumerate();
        pairs.all(|(i, (now, then))| now == then || at <= i && i - at < size)
    }

    // A cell's value on the medium; 0 of a medium whose head is out of rule.
    pub fn cell(&self, cell: u32) -> u64
        ensures { let table = part_of (act TableView (on_medium (take (32 + 32 * min self.now.slots 32 + 8 * min self.now.cells 32) self.now.bytes))).answer in 8 * cell + 8 ≤ length table → result ≡ number_at 8 (8 * cell) table }
    {
        let table = medium::head::table_view(self.medium());
        let at = 8 * cell as usize;
        if table.len() < at + 8 {
            return 0;
        }
        number::get8(table, at)
    }

    // Where the row after entry n's begins.
    #[tactic(auto, unfolding(scope::specs::Keeper::row_at))]
    pub fn row_after(&self, n: u32) -> usize
        ensures bound { result ≤ 1056 }
        ensures place { 0 < self.now.slots → self.now.slots ≤ 32 → result ≡ 32 + row_at self.now.slots (n + 1) }
    {
        32 + 32 * (n.checked_rem(self.slots).unwrap_or(0) as usize).min(MOST_ROWS)
    }

    // The row after entry n's brought from another medium.
    pub fn bring_row(&mut self, from: &Image, n: u32)
        ensures { 0 < self.old.slots → self.old.slots ≤ 32 → let at = 32 + row_at self.old.slots (n + 1) in self.new.bytes ≡ take at self.old.bytes ++ (take 32 (drop at from.now.bytes) ++ drop (at + 32) self.old.bytes) }
    {
        let at = self.row_after(n);
        self.bytes[at..at + 32].copy_from_slice(&from.bytes[at..at + 32]);
    }

    // The first bytes of the row after entry n's zeroed.
    pub fn lose_row(&mut self, n: u32, bytes: usize)
        ensures { 0 < self.old.slots → self.old.slots ≤ 32 → let at = 32 + row_at self.old.slots (n + 1) in self.new.bytes ≡ take at self.old.bytes ++ (replicate (min bytes 32) 0 ++ drop (at + min bytes 32) self.old.bytes) }
    {
        let at = self.row_after(n);
        self.bytes[at..at + bytes.min(32)].fill(0);
    }
}

// How many pieces of this size differ.
fn differing(a: &[u8], b: &[u8], size: usize) -> usize
    requires { 0 < size }
    ensures { result ≤ length a.now }
{
    a.chunks(size)
        .zip(b.chunks(size))
        .filter(|(x, y)| x != y)
        .count()
}
