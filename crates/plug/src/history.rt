// One made-up history: a medium of its own, drawn calls, and the plug pulled at every store.
use book::image::{Image, MOST_CELLS, MOST_ROWS};
use book::{Book, Likely};
use console::{Call, Did, Said};
use keeper::State;
use state::{Numbers, Phase};

// The keeper's state, and the workspaces that it is lent beside a medium, which take the front of these.
#[derive(Clone, Copy)]
struct Lent {
    state: State,
    current: [u64; MOST_CELLS],
    first: [u32; MOST_CELLS],
    last: [u32; MOST_CELLS],
    waiting: [u8; 32 * MOST_ROWS],
}

impl Lent {
    // Recovery started on this medium.
    fn start(image: &Image) -> Self {
        let n = image.cell_count();
        let w = 32 * image.row_count();
        let mut current = [0; MOST_CELLS];
        let mut first = [0; MOST_CELLS];
        let mut last = [0; MOST_CELLS];
        let waiting = [0; 32 * MOST_ROWS];
        let out = State::recovery_start(
            image.medium(),
            &mut current[..n],
            &mut first[..n],
            &mut last[..n],
            &waiting[..w],
        );
        Lent {
            state: out.state,
            current,
            first,
            last,
            waiting,
        }
    }

    // A call made. The check lends the fields of a variable side by side, and not those behind `self`.
    fn make(&mut self, call: Call, image: &mut Image) -> Did {
        let n = image.cell_count();
        let w = 32 * image.row_count();
        let size = image.size();
        let mut lent = *self;
        let did = console::make(
            lent.state,
            call,
            &mut image.bytes[..size],
            &mut lent.current[..n],
            &mut lent.first[..n],
            &mut lent.last[..n],
            &mut lent.waiting[..w],
        );
        lent.state = did.state;
        *self = lent;
        did
    }
}

// An entry to cut to: the last that is stored, the last before the open transaction, or any from h on.
fn draw_entry(numbers: Numbers, book: &mut Book) -> u32 {
    match book.below(3) {
        0 => numbers.f,
        1 => numbers.o,
        _ => numbers.h.wrapping_add(book.below(numbers.slots)),
    }
}

// A drawn call of a cell below N; in recovery a step, or a start, which is a loss of power. Every other time it is the one that is likely after
// the last, and a write-back is every other time of the last write's cell.
fn draw(state: State, book: &mut Book) -> Call {
    let numbers = state.numbers;
    let drawn = book.below(80);
    let likely = if book.flip() { None } else { book.likely };
    let cell = book.below(numbers.cells);
    let back = if book.flip() {
        cell
    } else {
        book.written.unwrap_or(cell)
    };
    let value = book.value();
    let entry = draw_entry(numbers, book);
    if state.phase.is_recovering() {
        return if drawn < 10 { Call::Start } else { Call::Step };
    }
    match likely {
        Some(Likely::WriteBack) => Call::WriteBack { cell: back },
        Some(Likely::Abort) => Call::Abort,
        Some(Likely::Cut) => Call::Cut { entry },
        None => match drawn {
            ..2 => Call::Start,
            2..10 => Call::Begin,
            10..28 => Call::Write { cell, value },
            28..34 => Call::Commit,
            34..36 => Call::Abort,
            36..38 => Call::Read { cell },
            38..62 => Call::Force,
            62..74 => Call::WriteBack { cell: back },
            _ => Call::Cut { entry },
        },
    }
}

// What an accepted call means for the list of writes; the end of recovery forgets what was not stored.
fn note(call: Call, said: Said, phase: Phase, book: &mut Book) {
    match (call, said) {
        (Call::Write { cell, value }, _) => book.wrote(cell, value),
        (Call::Commit, Said::Plain(n)) => book.committed(n),
        (Call::Force, Said::Plain(n)) => book.forced(n),
        (Call::Read { cell }, Said::Plain(value)) => {
            let want = book.current(cell);
            book.judge(value == want);
        }
        (Call::Begin | Call::Abort, _) => book.aborted(),
        (Call::Step | Call::Start, _) if phase.is_idle() => book.forget(),
        _ => {}
    }
}

// What is likely after a call, where a keeper that goes wrong would show it: a write, and its cell written back; a cell written back, and its
// transaction aborted or the journal cut; an abort, and a cut.
fn likely_after(call: Call, said: Said, heads: bool) -> Option<Likely> {
    match (call, said) {
        (Call::Write { .. }, _) => Some(Likely::WriteBack),
        (Call::Abort, _) => Some(Likely::Cut),
        (_, Said::Stored) => Some(if heads { Likely::Abort } else { Likely::Cut }),
        _ => None,
    }
}

// What any call means: recovery is never refused.
fn note_done(call: Call, did: Did, book: &mut Book) {
    let heads = book.flip();
    if let Ok(said) = did.said {
        book.likely = likely_after(call, said, heads);
        note(call, said, did.state.phase, book);
    } else {
        book.likely = None;
        book.refused.count();
        book.judge(!matches!(call, Call::Step | Call::Start));
    }
}

// At a store the plug is pulled, and each row is lost. The state that its call handed back is one of this medium's N and C.
fn stored(image: &Image, numbers: Numbers, f: u32, book: &mut Book) {
    book.stores.count();
    book.judge(numbers.cells == image.cells && numbers.slots == image.slots);
    pull::pull(image, book);
    wear::wear(image, numbers.h, f, book);
}

// A call but commit made at most one store, where it says so, and none where it says so.
fn judge(before: &Image, image: &Image, did: Did, book: &mut Book) {
    let stores = image.stores_since(before);
    let Some(place) = did.place else {
        book.judge(stores == 0);
        return;
    };
    book.judge(stores < 2);
    book.judge(image.differs_within(before, place.at, place.size));
    let numbers = did.state.numbers;
    stored(image, numbers, numbers.f, book);
}

// A commit's rows, those of the entries after `from`, brought one by one to the medium before it: that is all that it stored.
fn judge_commit(mut before: Image, image: &Image, did: Did, from: u32, book: &mut Book) {
    let numbers = did.state.numbers;
    if did.said.is_ok() {
        for n in from..numbers.l {
            before.bring_row(image, n);
            book.forced(u64::from(n) + 1);
            stored(&before, numbers, n + 1, book);
        }
    }
    book.judge(image.stores_since(&before) == 0);
}

// A drawn call, made, its meaning noted and its stores judged.
fn turn(lent: &mut Lent, image: &mut Image, book: &mut Book) {
    let before = *image;
    let from = lent.state.numbers.f;
    let call = draw(lent.state, book);
    let did = lent.make(call, image);
    book.calls.count();
    note_done(call, did, book);
    if call == Call::Commit {
        judge_commit(before, image, did, from, book);
    } else {
        judge(&before, image, did, book);
    }
}

// A medium, formatted, and its head set so that h is near the last number in every fourth history; then the plug is pulled for the first time.
fn prepare(cells: u32, slots: u32, book: &mut Book) -> Image {
    book.fresh();
    book.histories.count();
    let mut image = Image::blank(cells, slots);
    let size = image.size();
    let medium = &mut image.bytes[..size];
    let formatted = medium::head::format(medium, cells, slots);
    book.judge(formatted.is_ok());
    let short = book.below(160);
    let h = if short < 40 { u32::MAX - short } else { 0 };
    medium::head::store_head(medium, cells, slots, h);
    pull::pull(&image, book);
    image
}

// A history on a medium of N cells and C rows: the medium made, the first recovery start, and drawn calls.
pub fn history(cells: u32, slots: u32, turns: u32, book: &mut Book) {
    let mut image = prepare(cells, slots, book);
    let mut lent = Lent::start(&image);
    for _ in 0..turns {
        turn(&mut lent, &mut image, book);
    }
}
