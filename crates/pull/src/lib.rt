// Pulling the plug: the medium alone survives, recovery runs on a copy of it with rubbish for workspaces, and the table is compared.
#![tactic(auto)]

use answer::Refusal;
use book::Book;
use book::image::{Image, MOST_CELLS, MOST_ROWS};
use keeper::{Outcome, State};
use recovery::Step;

// What rubbish workspaces hold, byte for byte, where nothing is drawn.
pub const RUBBISH: u64 = 0xB5B5B5B5B5B5B5B5;

// Recovery start on rubbish, of which only the current values are kept.
pub fn restart(image: &Image, current: &mut [u64], rubbish: u32) -> Outcome<u64> {
    let n = image.cell_count();
    let w = 32 * image.row_count();
    let mut first = [rubbish; MOST_CELLS];
    let mut last = [rubbish; MOST_CELLS];
    let waiting = [0xA7; 32 * MOST_ROWS];
    State::recovery_start(
        image.medium(),
        current,
        &mut first[..n],
        &mut last[..n],
        &waiting[..w],
    )
}

// What a step that stored a cell must have done: the cell differed, a write had named it, and now it is as the stored transactions left it.
fn judge_cell(before: &Image, image: &Image, cell: u32, book: &mut Book) {
    let want = book.stored(cell);
    let known = book.named(cell);
    book.judge(before.cell(cell) != want);
    book.judge(image.cell(cell) == want);
    book.judge(known);
    book.restored.count();
}

// What a step answered, against what it did to the medium; whether recovery goes on.
fn judge_step(
    answer: Result<Step, Refusal>,
    before: &Image,
    image: &Image,
    book: &mut Book,
) -> bool {
    let stores = image.stores_since(before);
    match answer {
        Ok(Step::Cell(cell)) => {
            book.judge(stores == 1);
            judge_cell(before, image, cell, book);
        }
        Ok(Step::Head) => book.judge(stores == 1),
        Ok(Step::Clean) => book.judge(stores == 0),
        Err(_) => book.judge(false),
    }
    matches!(answer, Ok(Step::Cell(_)))
}

// One step of recovery, judged: the state after it, if recovery goes on.
fn step(state: State, image: &mut Image, current: &[u64], book: &mut Book) -> Option<State> {
    let before = *image;
    let size = image.size();
    let stepped = state.recovery_step(&mut image.bytes[..size], current);
    judge_step(stepped.answer, &before, image, book).then_some(stepped.state)
}

// Steps until recovery ends, or until `most` cells are stored; answers how many they stored.
fn steps(state: State, image: &mut Image, current: &[u64], most: u32, book: &mut Book) -> u32 {
    let mut state = state;
    for made in 0..most {
        let Some(next) = step(state, image, current, book) else {
            return made;
        };
        state = next;
    }
    most
}

// A recovery on rubbish, whole or cut after `most` cells; answers how many cells it stored.
fn recover(image: &mut Image, most: u32, book: &mut Book) -> u32 {
    let rubbish = book.draw();
    book.recoveries.count();
    let n = image.cell_count();
    let mut cells = [RUBBISH; MOST_CELLS];
    let current = &mut cells[..n];
    let started = restart(image, current, rubbish);
    if started.answer.is_err() {
        book.differences.count();
        return 0;
    }
    steps(started.state, image, current, most, book)
}

// The table against that of the stored transactions.
fn compare(image: &Image, book: &mut Book) {
    for cell in 0..image.cells {
        let want = book.stored(cell);
        book.judge(image.cell(cell) == want);
    }
}

// A recovery right after one that ended stores nothing.
fn again(image: &mut Image, book: &mut Book) {
    let before = *image;
    recover(image, 1, book);
    book.judge(image.stores_since(&before) == 0);
}

// Power lost with this on the medium: recovery to its end, the table compared, and recovery again; answers how many cells the first stored.
fn end(image: &mut Image, book: &mut Book) -> u32 {
    book.cuts.count();
    let made = recover(image, 1000, book);
    compare(image, book);
    again(image, book);
    made
}

// Power lost on a copy, and again after `most` cells of recovery, if that is asked.
fn cut(image: &Image, most: Option<u32>, book: &mut Book) -> u32 {
    let mut copy = *image;
    if let Some(most) = most {
        book.cuts.count();
        recover(&mut copy, most, book);
    }
    end(&mut copy, book)
}

// Power cut with this on the medium, and again after each cell that the recovery that follows stores.
pub fn pull(image: &Image, book: &mut Book) {
    let made = cut(image, None, book);
    for most in 1..=made {
        cut(image, Some(most), book);
    }
}
