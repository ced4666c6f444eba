// Why a cell of a medium says what it says, as text: five lines, or the refusal's number.
#![tactic(auto)]

ghost use Rattle.std.specs.Prelude.{◌≡◌, ◌++◌, ◌+◌, ◌<◌, ◌≤◌, length, replicate};
ghost use Rattle.text.specs.Text.{line, refused_key};
ghost use Rattle.lines.specs.Lines.{decimal_of};
ghost use Rattle.recovered.specs.Recovered.{head_number};
ghost use Rattle.why_text.specs.Why.{value_line, reason_line, five_lines, cell_why, why_text};

use answer::Refusal;
use lines::decimal_of;
use medium::head::head_ok;
use medium::layout::index;
use reasons::{Decision, Reason, decide};
use recovered::head_number;
use text::Text;
use values::values;

// The value: empty, or part, colon, release.
#[tactic(auto, using(crate::proofs::Saying::value_lines))]
fn put_value(value: u64, text: &mut Text<128>)
    requires { length text.old + 39 ≤ 128 }
    ensures { text.new ≡ text.old ++ value_line value }
{
    text.put_bytes(b"value=");
    if value == 0 {
        text.put_bytes(b"empty\n");
        return;
    }
    text.put_decimal(value % 4294967296, b':');
    text.put_decimal(value / 4294967296 % 65536, b'.');
    text.put_decimal(value / 281474976710656 % 65536, b'\n');
}

// The reason's word.
fn put_reason(reason: Reason, text: &mut Text<128>)
    requires { length text.old + 16 ≤ 128 }
    ensures { text.new ≡ text.old ++ reason_line reason }
{
    match reason {
        Reason::Table => text.put_bytes(b"reason=table\n"),
        Reason::Written => text.put_bytes(b"reason=written\n"),
        Reason::Restored => text.put_bytes(b"reason=restored\n"),
    }
}

// The five lines, 103 bytes at most.
#[tactic(auto, using(crate::proofs::Saying::five), unfolding(crate::specs::Why::five_lines))]
fn five(cell: u32, value: u64, decision: Decision) -> Text<128>
    ensures { result ≡ five_lines cell value decision }
{
    let mut text = Text::new();
    text.put_line(b"cell=", u64::from(cell));
    put_value(value, &mut text);
    put_reason(decision.reason, &mut text);
    text.put_line(b"entry=", u64::from(decision.entry));
    text.put_line(b"end=", u64::from(decision.end));
    text
}

// A refusal's number alone.
#[tactic(auto, using(text::proofs::Writing::length_line_32))]
fn refused(number: u32) -> Text<128>
    ensures { result ≡ line refused_key number }
{
    let mut text = Text::new();
    text.put_line(b"refused=", u64::from(number));
    text
}

// A cell of the table, with zeros to recover in, one for each cell.
fn cell_why(medium: &[u8], cell: u32, current: &mut [u64]) -> Text<128>
    requires { (current.old ≡ replicate (head_number 0 medium.now) 0) × (cell < head_number 0 medium.now) }
    ensures { result ≡ cell_why medium.now cell }
{
    match values(medium, current) {
        Ok(()) => five(cell, current[index(cell)], decide(medium, cell)),
        Err(unread) => refused(unread.number()),
    }
}

// Why the cell that a line asks for says what it says. The medium is recovered in memory of its own. Goes over the entries that count three
// times, and once over the table.
pub fn why(medium: &[u8], line: &[u8]) -> Text<128>
    ensures { result ≡ why_text medium.now (decimal_of line.now) }
{
    if !head_ok(medium) {
        return refused(Refusal::Unfit.number());
    }
    let Some(cell) = decimal_of(line) else {
        return refused(Refusal::NoCell.number());
    };
    let cells = head_number(medium, 0);
    if cells as u64 <= cell {
        return refused(Refusal::NoCell.number());
    }
    let mut current = [0; 1024];
    cell_why(medium, cell as u32, &mut current[..cells])
}
