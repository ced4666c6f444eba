// Lines of what a program read, and a line as a decimal number. A line ends before its newline, and before the CR of a CR LF. A last line without
// its newline is a line; a blank line is a line of no bytes; after the last newline no line begins.
#![tactic(auto)]

ghost use Rattle.std.specs.Prelude.{◌≡◌, ◌-◌, ◌≤◌, length, take, drop, position, nat_eq};
ghost use Rattle.lines.specs.Lines.{newline, line_end, next_line, line_at, nth_line, line_bytes, with_digit, decimal_of};

// A line: where it begins and ends, and where the next one would begin.
#[derive(Clone, Copy)]
pub struct Line {
    pub from: usize,
    pub to: usize,
    pub next: usize,
}

// The first newline.
fn first_newline(s: &[u8]) -> Option<usize>
    ensures { result ≡ position (λ byte. nat_eq byte 10) s.now }
{
    s.iter().position(|byte| *byte == b'\n')
}

// Where the first newline from a place on stands, or the end.
fn newline(s: &[u8], at: usize) -> usize
    requires { at ≤ length s.now }
    ensures { (result ≡ newline at s.now) × (at ≤ result) × (result ≤ length s.now) }
{
    match first_newline(&s[at..]) {
        Some(before) => at + before,
        None => s.len(),
    }
}

// Where the line ends that begins at a place and has its newline at another: before the CR of a CR LF.
#[tactic(auto, using(crate::proofs::Lined::end_cr))]
fn line_end(s: &[u8], at: usize, newline: usize) -> usize
    requires { (at ≤ newline) × (newline ≤ length s.now) }
    ensures { result ≡ line_end at newline s.now }
{
    if newline < s.len() && at < newline && s[newline - 1] == b'\r' {
        newline - 1
    } else {
        newline
    }
}

// Where the next line would begin.
fn next_line(s: &[u8], newline: usize) -> usize
    ensures { result ≡ next_line newline s.now }
{
    if newline < s.len() {
        newline + 1
    } else {
        newline
    }
}

// The line that begins at a place; none at the end or past it. Goes over its bytes once.
pub fn line_at(s: &[u8], at: usize) -> Option<Line>
    ensures { result ≡ line_at at s.now }
{
    if s.len() <= at {
        return None;
    }
    let newline = newline(s, at);
    Some(Line {
        from: at,
        to: line_end(s, at, newline),
        next: next_line(s, newline),
    })
}

// The line of number k, counted from 0. Goes over the bytes up to its end once.
pub fn nth_line(s: &[u8], k: usize) -> Option<Line>
    ensures { result ≡ nth_line k s.now }
{
    let mut at = 0;
    for _ in 0..k {
        at = line_at(s, at)?.next;
    }
    line_at(s, at)
}

// The bytes of the line of number k; none of a line that is not there.
pub fn nth_bytes(s: &[u8], k: usize) -> &[u8]
    ensures { result.now ≡ line_bytes (nth_line k s.now) s.now }
{
    match nth_line(s, k) {
        Some(line) => &s[line.from..line.to],
        None => &[],
    }
}

// A number with one digit more, where it stays within 64 bits.
#[tactic(auto, using(crate::proofs::Numbered::more_digit, crate::proofs::Numbered::past_64, crate::proofs::Numbered::below_digits, crate::proofs::Numbered::above_digits))]
fn with_digit(n: u64, byte: u8) -> Option<u64>
    ensures { result ≡ with_digit n byte }
{
    match byte {
        b'0'..=b'9' => n.checked_mul(10)?.checked_add(u64::from(byte - b'0')),
        _ => None,
    }
}

// The decimal number that a line is: digits and nothing else, at least one, within 64 bits. Zeros in front are accepted.
pub fn decimal_of(line: &[u8]) -> Option<u64>
    ensures { result ≡ decimal_of line.now }
{
    if line.is_empty() {
        return None;
    }
    let mut n = 0;
    for byte in line {
        n = with_digit(n, *byte)?;
    }
    Some(n)
}
