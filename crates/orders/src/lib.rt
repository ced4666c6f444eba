// Orders, a line each, and what is written in answer: text in, text out. `say` has the lines, `show` what stands on the medium.
#![tactic(auto)]

pub mod say;
pub mod show;

ghost use Rattle.std.specs.Prelude.{◌≡◌, Option};
ghost use Rattle.orders.specs.Orders.{call_kind, kind_of, arity_of, given_of, sizes_order, kind_order, words_order, worded_order, order_of, write_order, about_file};
ghost use Rattle.words.specs.Words.{word_number, word_release};

use console::Call;
use std::rt::HostRuntime;
use words::{Input, Span};

// What a line asks for: a call of the keeper's, several of them, or something of the terminal's own.
#[derive(Clone, Copy, Debug, PartialEq, Eq)]
pub enum Order {
    Call(Call),
    Recover,
    Store,
    // The file's name stands there in the line.
    Open(Span),
    New(Span),
    // Whether a table may be erased stands last.
    Format { cells: u32, slots: u32, erase: bool },
    Look { entry: u32 },
    List,
    Help,
    Quit,
    // An empty line, or one that begins with #.
    Nothing,
}

// What a line's first word names.
#[derive(Clone, Copy, Debug, PartialEq, Eq)]
pub enum Kind {
    Begin,
    Write,
    Abort,
    Commit,
    Read,
    Force,
    Cut,
    Back,
    Step,
    Start,
    Open,
    New,
    Recover,
    Store,
    Format,
    Look,
    List,
    Help,
    Quit,
}

// Why a line is no order: its first word names nothing, it does not fit, or the words after the first are not what that wants.
#[derive(Clone, Copy, Debug, PartialEq, Eq)]
pub enum Wrong {
    Word,
    Line,
    Words(Kind),
}

// The word that a format says where a table is to be erased, as a number.
const ERASE: u64 = 435710686053;

impl Order {
    // Whether it is about a file that is open.
    pub fn wants_file(self) -> bool
        ensures { result ≡ about_file self }
    {
        matches!(
            self,
            Order::Call(_)
                | Order::Recover
                | Order::Store
                | Order::Format { .. }
                | Order::Look { .. }
                | Order::List
        )
    }
}

// The call that a word names. Words are compared as numbers, `cut` is 6,518,132: a match on their bytes would answer otherwise where zero
// bytes stand before a word, which `word_key` doesn't see.
#[tactic(auto, unfolding(crate::specs::Orders::call_kind))]
fn call_kind(key: u64) -> Option<Kind>
    ensures { result ≡ call_kind key }
{
    match key {
        422608071022 => Some(Kind::Begin),
        513020621925 => Some(Kind::Write),
        418263298676 => Some(Kind::Abort),
        109330228406644 => Some(Kind::Commit),
        1919246692 => Some(Kind::Read),
        439956431717 => Some(Kind::Force),
        6518132 => Some(Kind::Cut),
        1650549611 => Some(Kind::Back),
        1937007984 => Some(Kind::Step),
        495873782388 => Some(Kind::Start),
        _ => None,
    }
}

// The kind that a first word names.
#[tactic(auto, unfolding(crate::specs::Orders::kind_of))]
fn kind_of(key: u64) -> Option<Kind>
    ensures { result ≡ kind_of key }
{
    match key {
        1869636974 => Some(Kind::Open),
        7234935 => Some(Kind::New),
        32199625091212658 => Some(Kind::Recover),
        495874699877 => Some(Kind::Store),
        112628847174004 => Some(Kind::Format),
        1819242347 => Some(Kind::Look),
        1818850164 => Some(Kind::List),
        1751477360 => Some(Kind::Help),
        1903520116 => Some(Kind::Quit),
        _ => call_kind(key),
    }
}

impl Kind {
    // How many words follow this one. A format's are counted by `format`.
    fn arity(self) -> u32
        ensures { result ≡ arity_of self }
    {
        match self {
            Kind::Write => 3,
            Kind::New | Kind::Open | Kind::Read | Kind::Back | Kind::Cut | Kind::Look => 1,
            _ => 0,
        }
    }
}

// How many words of a line follow its first, as far as four.
fn given(a: Span, b: Span, c: Span, d: Span) -> u32
    ensures { result ≡ given_of a b c d }
{
    if a.is_empty() {
        0
    } else if b.is_empty() {
        1
    } else if c.is_empty() {
        2
    } else if d.is_empty() {
        3
    } else {
        4
    }
}

// A format: its two sizes, and the word `erase` or nothing. The line and its words are parameters of their own, here and below, as in the
// definitions: a struct of them would be made once and taken apart at once.
fn format(s: &[u8], given: u32, a: Span, b: Span, c: Span) -> Option<Order>
    ensures { result ≡ sizes_order s.now given a b c }
{
    let erase = given == 3 && words::key(s, c) == ERASE;
    if given != 2 && !erase {
        return None;
    }
    let cells = words::number(s, a)?;
    let slots = words::number(s, b)?;
    Some(Order::Format {
        cells,
        slots,
        erase,
    })
}

// A write: its cell, part and release.
fn write(s: &[u8], a: Span, b: Span, c: Span) -> Option<Order>
    ensures { result ≡ write_order (word_number s.now a.from a.to) (word_number s.now b.from b.to) (word_release s.now c.from c.to) }
{
    let cell = words::number(s, a)?;
    let part = words::number(s, b)?;
    let release = words::release(s, c)?;
    let value = u64::from(part) + 4294967296 * u64::from(release);
    Some(Order::Call(Call::Write { cell, value }))
}

// The order of a kind that as many words follow as it has: it stands alone, or with a file's name, or with numbers.
#[tactic(auto, unfolding(crate::specs::Orders::kind_order))]
fn of_kind(s: &[u8], kind: Kind, a: Span, b: Span, c: Span) -> Option<Order>
    ensures { result ≡ kind_order s.now kind a b c }
{
    match kind {
        Kind::Begin => Some(Order::Call(Call::Begin)),
        Kind::Write => write(s, a, b, c),
        Kind::Abort => Some(Order::Call(Call::Abort)),
        Kind::Commit => Some(Order::Call(Call::Commit)),
        Kind::Read => words::number(s, a).map(|cell| Order::Call(Call::Read { cell })),
        Kind::Force => Some(Order::Call(Call::Force)),
        Kind::Cut => words::number(s, a).map(|entry| Order::Call(Call::Cut { entry })),
        Kind::Back => words::number(s, a).map(|cell| Order::Call(Call::WriteBack { cell })),
        Kind::Step => Some(Order::Call(Call::Step)),
        Kind::Start => Some(Order::Call(Call::Start)),
        Kind::Open => Some(Order::Open(a)),
        Kind::New => Some(Order::New(a)),
        Kind::Recover => Some(Order::Recover),
        Kind::Store => Some(Order::Store),
        Kind::Look => words::number(s, a).map(|entry| Order::Look { entry }),
        Kind::List => Some(Order::List),
        Kind::Help => Some(Order::Help),
        Kind::Quit => Some(Order::Quit),
        Kind::Format => None,
    }
}

// The order of a kind with the words that follow it, or none where they are not what it wants.
fn with_words(s: &[u8], kind: Kind, given: u32, a: Span, b: Span, c: Span) -> Option<Order>
    ensures { result ≡ words_order s.now kind given a b c }
{
    match kind {
        Kind::Format => format(s, given, a, b, c),
        _ if given == kind.arity() => of_kind(s, kind, a, b, c),
        _ => None,
    }
}

// The order of a line that is not empty.
#[tactic(auto, unfolding(crate::specs::Orders::worded_order))]
fn worded(s: &[u8], first: Span) -> Result<Order, Wrong>
    ensures { result ≡ worded_order s.now first }
{
    let kind = kind_of(words::key(s, first)).ok_or(Wrong::Word)?;
    let a = words::word_after(s, first.to);
    let b = words::word_after(s, a.to);
    let c = words::word_after(s, b.to);
    let d = words::word_after(s, c.to);
    with_words(s, kind, given(a, b, c, d), a, b, c).ok_or(Wrong::Words(kind))
}

// The order of a line.
pub fn parse(s: &[u8]) -> Result<Order, Wrong>
    ensures { result ≡ order_of s.now }
{
    let first = words::word_after(s, 0);
    if first.is_empty() || s.starts_with(b"#") {
        return Ok(Order::Nothing);
    }
    worded(s, first)
}

// The next line's order.
pub fn next(rt: HostRuntime, line: &mut [u8]) -> Result<Order, Wrong> {
    say::prompt(rt);
    match words::read_line(line) {
        Input::End => Ok(Order::Quit),
        Input::Long => Err(Wrong::Line),
        Input::Line(n) => {
            let text = &line[..n];
            parse(text.strip_suffix(b"\r").unwrap_or(text))
        }
    }
}
