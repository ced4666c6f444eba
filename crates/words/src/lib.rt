// Words of a line, the numbers and releases that they are, and a line read from standard input. Every function takes any bytes.
#![tactic(auto)]

ghost use Rattle.std.specs.Prelude.{◌≡◌, ◌-◌, ◌<◌, ◌≤◌, ℕ, Bool, leb, get_or, length};
ghost use Rattle.words.specs.Words.{place_in, word_after, word_key, word_number, word_release, fits};

// Standard input's descriptor.
const STDIN_FILENO: i32 = 0;

// A word's place in its line; an empty one has from = to.
#[derive(Clone, Copy, Debug, PartialEq, Eq)]
pub struct Span {
    pub from: usize,
    pub to: usize,
}

impl Span {
    pub fn is_empty(self) -> bool
        ensures { result ≡ leb self.to self.from }
    {
        self.to <= self.from
    }
}

// What a line of standard input is: one of so many bytes, one that does not fit, or none any more.
#[derive(Clone, Copy, Debug, PartialEq, Eq)]
pub enum Input {
    Line(usize),
    Long,
    End,
}

// The byte at a place; 0 past the end.
pub fn byte(s: &[u8], i: usize) -> u8
    ensures { result ≡ get_or s.now i 0 }
{
    s.get(i).copied().unwrap_or(0)
}

// The first place from `from` up to `to` whose byte passes the test, or the place after them.
fn place<F: Fn(u8) -> bool>(s: &[u8], from: usize, to: usize, passes: F) -> usize
    requires { F.IsAlwaysCallable passes }
    ensures { (t : ℕ → Bool)
        → ((b : ℕ) (r : Bool) → b < 256 → F.post passes b r → r ≡ t b)
        → result ≡ place_in t (to - from) s.now from }
{
    for i in from..to {
        if passes(byte(s, i)) {
            return i;
        }
    }
    from.max(to)
}

// The first word from `from` on.
pub fn word_after(s: &[u8], from: usize) -> Span
    ensures { result ≡ word_after s.now from }
{
    let from = place(s, from, s.len(), |b| b != b' ');
    let to = place(s, from, s.len(), |b| b == b' ');
    Span { from, to }
}

// A word of up to 8 bytes as one number, its first byte the highest; 0 for a longer one.
pub fn key(s: &[u8], w: Span) -> u64
    ensures { result ≡ word_key s.now w }
{
    let mut k: u64 = 0;
    for i in w.from..w.to {
        if 1 << 56 <= k {
            return 0;
        }
        k = k * 256 + u64::from(byte(s, i));
    }
    k
}

// The decimal number below 2^32 that the word is.
pub fn number(s: &[u8], w: Span) -> Option<u32>
    ensures { result ≡ word_number s.now w.from w.to }
{
    if w.is_empty() {
        return None;
    }
    let mut n: u32 = 0;
    for i in w.from..w.to {
        let digit = byte(s, i);
        if !digit.is_ascii_digit() {
            return None;
        }
        n = n.checked_mul(10)?.checked_add(u32::from(digit - b'0'))?;
    }
    Some(n)
}

// The release that the word is, major, a point, minor, each below 65,536: major + 65,536 * minor.
pub fn release(s: &[u8], w: Span) -> Option<u32>
    ensures { result ≡ word_release s.now w.from w.to }
{
    let point = place(s, w.from, w.to, |b| b == b'.');
    if w.to <= point {
        return None;
    }
    let before = Span {
        from: w.from,
        to: point,
    };
    let after = Span {
        from: point + 1,
        to: w.to,
    };
    let major = number(s, before)?;
    let minor = number(s, after)?;
    if major > 65535 || minor > 65535 {
        return None;
    }
    Some(major + 65536 * minor)
}

// One byte of standard input, or none at its end.
fn read_byte() -> Option<u8> {
    let mut b = [0u8; 1];
    let got = io::read_full(STDIN_FILENO, &mut b);
    (got == 1).then_some(b[0])
}

// A line of standard input without its end, put into the buffer as far as it fits.
pub fn read_line(line: &mut [u8]) -> Input
    ensures { fits result (length line.new) }
{
    for n in 0..usize::MAX {
        match read_byte() {
            None if n == 0 => return Input::End,
            None | Some(b'\n') if line.len() < n => return Input::Long,
            None | Some(b'\n') => return Input::Line(n),
            Some(b) if n < line.len() => line[n] = b,
            Some(_) => {}
        }
    }
    Input::End
}
