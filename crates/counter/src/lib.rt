// The counter screen: for a control unit the cell to order, and for a part in hand what it is. Each call reads the table view of the medium that it is
// lent, copies nothing and changes nothing, and says what the bytes say: the caller recovers the medium first.
#![tactic(auto)]

ghost use Rattle.std.specs.Prelude.{◌≡◌, ◌+◌, ◌*◌, ◌≤◌, Some, Ok, IfOk, length};
ghost use Rattle.std.specs.Result.{result_and};
ghost use Rattle.scope.specs.Keeper.{cells_of, part_of};
ghost use Rattle.scope.specs.Refusals.{TableView};
ghost use Rattle.scope.specs.Calls.{act};
ghost use Rattle.medium.specs.Lent.{on_medium};
ghost use Rattle.counter.specs.Counter.{part_number, release, counts, better, best_in, span_refusal, cell_to_order, against, part_in_hand};

use answer::Refusal;
use medium::head::try_table_view;
use medium::layout::index;

// A control unit: the span of cells that it owns.
#[derive(Clone, Copy)]
pub struct ControlUnit {
    pub lowest: u32,
    pub count: u32,
}

// What a part in hand is: the one to order, its equal in release, older, or not listed.
#[derive(Clone, Copy, Debug, PartialEq, Eq)]
pub enum Hand {
    ThatOne,
    Equal,
    Older,
    NotListed,
}

// The best cell of a span among those that count, with its value.
#[derive(Clone, Copy, Debug, PartialEq, Eq)]
pub struct Best {
    pub cell: u32,
    pub value: u64,
}

// The part that a value lists.
#[tactic(auto, unfolding(crate::specs::Counter::part_number))]
fn part_number(value: u64) -> u64
    ensures { result ≡ part_number value }
{
    value % 4294967296
}

// The release as one number, major before minor.
#[tactic(auto, unfolding(crate::specs::Counter::release, crate::specs::Counter::major, crate::specs::Counter::minor))]
fn release(value: u64) -> u64
    ensures { result ≡ release value }
{
    65536 * (value / 4294967296 % 65536) + value / 281474976710656 % 65536
}

// Whether a cell with this value counts: it is not empty and, where a part is sought, lists that.
#[tactic(auto, unfolding(crate::specs::Counter::counts))]
fn counts(sought: Option<u64>, value: u64) -> bool
    ensures { result ≡ counts sought value }
{
    value != 0 && sought.is_none_or(|part| part_number(value) == part)
}

// One cell more that counts: it is the best now if its release is above that of the best before.
#[tactic(auto, unfolding(crate::specs::Counter::better))]
fn better(best: Option<Best>, next: Best) -> Best
    ensures { Some result ≡ better next.cell next.value best }
{
    match best {
        Some(best) if release(next.value) <= release(best.value) => best,
        _ => next,
    }
}

// The best cell of a unit's span of the table, by rising number. Goes once over the span.
fn best_in(table: &[u8], unit: ControlUnit, sought: Option<u64>) -> Option<Best>
    requires bytes { 8 * (unit.lowest + unit.count) ≤ length table.now }
    requires cells { unit.lowest + unit.count ≤ 1024 }
    ensures { result ≡ best_in sought (cells_of (unit.lowest + unit.count) table.now) unit.lowest unit.count }
{
    let mut best = None;
    for cell in unit.lowest..unit.lowest + unit.count {
        let value = number::get8(table, 8 * index(cell));
        if counts(sought, value) {
            best = Some(better(best, Best { cell, value }));
        }
    }
    best
}

// The table, if a unit's span lies in it; else what `span_refusal` says.
fn table_for(medium: &[u8], unit: ControlUnit) -> Result<&[u8], Refusal>
    ensures refusal { result_and result (Ok tt) ≡ span_refusal medium.now unit.lowest unit.count }
    ensures table { IfOk result (λ table. table.now ≡ part_of (act TableView (on_medium medium.now)).answer) }
{
    let table = try_table_view(medium)?;
    let end = index(unit.lowest) + index(unit.count);
    if table.len() < 8 * end {
        return Err(Refusal::NoCell);
    }
    Ok(table)
}

// What both questions are refused with before any cell is read: 1, the head out of rule; or 4, lowest plus count, in 64 bits, above N.
pub fn span_refusal(medium: &[u8], unit: ControlUnit) -> Result<(), Refusal>
    ensures { result ≡ span_refusal medium.now unit.lowest unit.count }
{
    table_for(medium, unit).and(Ok(()))
}

// The cell to order for a unit: of the cells of its span that are not empty the one of greatest release, the lowest among equals. Refuses with 1,
// the medium's head or length out of rule; 4, lowest plus count above N; 12, every cell of the span empty. Goes once over the span.
pub fn cell_to_order(medium: &[u8], unit: ControlUnit) -> Result<Best, Refusal>
    ensures { result ≡ cell_to_order medium.now unit.lowest unit.count }
{
    let table = table_for(medium, unit)?;
    best_in(table, unit, None).ok_or(Refusal::NoPart)
}

// A part that is not the one to order, by the best of the cells that list it.
#[tactic(auto, unfolding(crate::specs::Counter::against))]
fn against(value: u64, listed: Option<Best>) -> Hand
    ensures { result ≡ against value listed }
{
    match listed {
        None => Hand::NotListed,
        Some(own) if release(own.value) < release(value) => Hand::Older,
        Some(_) => Hand::Equal,
    }
}

// What a part in hand is for a unit: the one to order, its equal in release, older, or not listed; a part in several cells of the span counts
// by its greatest release. Refuses as `cell_to_order` does. Goes twice over the span.
pub fn part_in_hand(medium: &[u8], unit: ControlUnit, part: u64) -> Result<Hand, Refusal>
    ensures { result ≡ part_in_hand medium.now unit.lowest unit.count part }
{
    let table = table_for(medium, unit)?;
    let best = best_in(table, unit, None).ok_or(Refusal::NoPart)?;
    if part_number(best.value) == part {
        return Ok(Hand::ThatOne);
    }
    Ok(against(best.value, best_in(table, unit, Some(part))))
}
