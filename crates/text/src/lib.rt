// The text of a table, in memory of a fixed size: each function writes after what stands there.
#![tactic(auto)]

ghost use Rattle.std.specs.Prelude.{◌≡◌, ℕ, List, ◌∷◌, [], ◌++◌, ◌+◌, ◌*◌, ◌≤◌, length, decimal};
ghost use Rattle.scope.specs.Recovery.{table_of};
ghost use Rattle.text.specs.Text.{line, release_line, cell_text, cells_text, table_text};

use arrayvec::ArrayVec;
use medium::layout::cell_at;
use std::marker::Model;

// A text of at most N bytes.
#[derive(Drop)]
pub struct Text<const N: usize> {
    written: ArrayVec<u8, N>,
}

// Clauses see the bytes.
impl<const N: usize> Model for Text<N> {
    ghost Value = { List ℕ };

    ghost view = { λ text. text.written.items };

    ghost invariant = { λ text. length text.written.items ≤ N };
}

impl<const N: usize> Text<N> {
    // No bytes.
    pub fn new() -> Self
        ensures { result ≡ [] }
    {
        Text {
            written: ArrayVec::new(),
        }
    }

    // The bytes written so far.
    pub fn bytes(&self) -> &[u8]
        ensures value { result.now ≡ self.now }
        ensures upper_bound { length result.now ≤ N }
    {
        self.written.as_slice()
    }

    // Bytes, one after the other.
    pub fn put_bytes(&mut self, bytes: &[u8])
        requires { length self.old + length bytes.now ≤ N }
        ensures { self.new ≡ self.old ++ bytes.now }
    {
        self.written.try_extend_from_slice(bytes).unwrap();
    }

    // A number in decimal, and the byte after it.
    pub fn put_decimal(&mut self, n: u64, after: u8)
        requires { length self.old + length (decimal n) + 1 ≤ N }
        ensures { self.new ≡ self.old ++ decimal n ++ after ∷ [] }
    {
        self.put_bytes(itoa::Buffer::new().format(n).as_bytes());
        self.written.push(after);
    }

    // A line: key, number, line end.
    #[tactic(auto, unfolding(crate::specs::Text::line))]
    pub fn put_line(&mut self, key: &[u8], n: u64)
        requires { length self.old + length (line key.now n) ≤ N }
        ensures { self.new ≡ self.old ++ line key.now n }
    {
        self.put_bytes(key);
        self.put_decimal(n, b'\n');
    }

    // The release: major, a point, minor.
    #[tactic(auto, using(crate::proofs::Writing::room), unfolding(crate::specs::Text::release_line))]
    pub fn put_release(&mut self, major: u32, minor: u32)
        requires { length self.old + 30 ≤ N }
        ensures { self.new ≡ self.old ++ release_line major minor }
    {
        self.put_bytes(b"release=");
        self.put_decimal(u64::from(major), b'.');
        self.put_decimal(u64::from(minor), b'\n');
    }

    // The three lines of a cell, 62 bytes at most; of an empty one none.
    #[tactic(auto, using(crate::proofs::Writing::cell_lines))]
    pub fn put_cell(&mut self, cell: u32, value: u64)
        requires { length self.old + 62 ≤ N }
        ensures { self.new ≡ self.old ++ cell_text cell value }
    {
        if value == 0 {
            return;
        }
        let major = (value / 4294967296 % 65536) as u32;
        let minor = (value / 281474976710656 % 65536) as u32;
        self.put_line(b"cell=", u64::from(cell));
        self.put_line(b"part=", value % 4294967296);
        self.put_release(major, minor);
    }

    // The cells of the medium's table by rising number.
    fn put_cells(&mut self, medium: &[u8], slots: u32, cells: u32)
        requires { (32 + 32 * slots + 8 * cells ≤ length medium.now) × (length self.old + 62 * cells ≤ N) }
        ensures { self.new ≡ self.old ++ cells_text 0 (table_of cells slots medium.now) }
    {
        for i in 0..cells {
            self.put_cell(i, number::get8(medium, cell_at(slots, i)));
        }
    }

    // N, C and h, then the table.
    #[tactic(auto, using(crate::proofs::Writing::room), unfolding(crate::specs::Text::table_text))]
    pub fn put_table(&mut self, medium: &[u8], cells: u32, slots: u32, h: u32)
        requires { (32 + 32 * slots + 8 * cells ≤ length medium.now) × (length self.old + 50 + 62 * cells ≤ N) }
        ensures { self.new ≡ self.old ++ table_text cells slots h (table_of cells slots medium.now) }
    {
        self.put_line(b"cells=", u64::from(cells));
        self.put_line(b"slots=", u64::from(slots));
        self.put_line(b"head=", u64::from(h));
        self.put_cells(medium, slots, cells);
    }
}
