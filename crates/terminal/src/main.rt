// A terminal over the keeper on a real file. It reads orders, one a line, and answers each; each store is in the file, at its own place and
// synced, before the next and before its order is answered, so that killing the terminal at any moment is a loss of power between two calls, between
// two steps of a commit, or before the last store.
#![tactic(auto)]

mod reply;

use card::desk::Desk;
use card::file::Session;
use console::{Call, Did, Said};
use keeper::State;
use orders::{Order, say, show};
use std::rt::HostRuntime;
use words::Span;

// What a call stored, brought to the file: its one store, or a commit's rows, which the state before it tells.
fn bring(
    session: &Session,
    before: State,
    call: Call,
    did: Did,
    medium: &[u8],
) -> std::io::Result<()> {
    match call {
        Call::Commit => session.bring_rows(medium, before.numbers.f, did.state.numbers.f),
        _ => session.bring(medium, did.place),
    }
}

// A call's stores are brought to the file; only then it is answered.
fn finish(
    rt: HostRuntime,
    session: &Session,
    before: State,
    call: Call,
    did: Did,
    medium: &[u8],
) -> bool {
    let said = match did.said {
        Ok(said) => said,
        Err(why) => return show::refused(why, medium),
    };
    match bring(session, before, call, did, medium) {
        Ok(()) => reply::answer(rt, call, said),
        Err(_) => reply::lost(),
    }
}

// A call of the keeper's.
fn call_on(rt: HostRuntime, session: &mut Session, call: Call, desk: &mut Desk<'_>) -> bool {
    let before = session.state;
    let did = session.make(call, desk);
    finish(rt, session, before, call, did, desk.medium)
}

// Recovery, to its end: each cell is named as it is stored. It stores every cell at most once, and then the head.
fn recover_on(rt: HostRuntime, session: &mut Session, desk: &mut Desk<'_>) -> bool {
    for _ in 0..1025 {
        let before = session.state;
        let did = session.make(Call::Step, desk);
        let Ok(Said::Cell(cell)) = did.said else {
            return finish(rt, session, before, Call::Step, did, desk.medium);
        };
        if session.bring(desk.medium, did.place).is_err() {
            return reply::lost();
        }
        if !say::pair(b"cell=", u64::from(cell)) {
            return false;
        }
    }
    true
}

// Every entry that waits is stored, and in the file before the answer.
fn store_on(session: &mut Session, desk: &mut Desk<'_>) -> bool {
    match session.store_rows(desk) {
        Ok(number) => say::pair(b"answer=", number),
        Err(why) => reply::unstored(why, desk.medium),
    }
}

// An order for the keeper, with the sizes that the medium's head names. The buffers come one by one: a part of a slice that lies behind a
// field behind a `&mut` isn't lent on in a struct (tried; the check doesn't cover it).
fn call(
    rt: HostRuntime,
    session: &mut Session,
    order: Order,
    medium: &mut [u8],
    current: &mut [u64],
    first: &mut [u32],
    last: &mut [u32],
    waiting: &mut [u8],
) -> bool {
    let cells = show::head_number(medium, 0);
    let rows = show::row_bytes(medium);
    let m = session.size.min(medium.len());
    let n = cells.min(current.len());
    let n1 = cells.min(first.len());
    let n2 = cells.min(last.len());
    let w = rows.min(waiting.len());
    let mut desk = Desk {
        medium: &mut medium[..m],
        current: &mut current[..n],
        first: &mut first[..n1],
        last: &mut last[..n2],
        waiting: &mut waiting[..w],
    };
    match order {
        Order::Call(call) => call_on(rt, session, call, &mut desk),
        Order::Recover => recover_on(rt, session, &mut desk),
        Order::Store => store_on(session, &mut desk),
        _ => true,
    }
}

fn call_with(rt: HostRuntime, session: &mut Session, order: Order, desk: &mut Desk<'_>) -> bool {
    call(
        rt,
        session,
        order,
        desk.medium,
        desk.current,
        desk.first,
        desk.last,
        desk.waiting,
    )
}

fn look(session: &Session, entry: u32, desk: &Desk<'_>) -> bool {
    show::look(
        session.state,
        entry,
        desk.medium,
        desk.waiting,
        session.size,
    )
}

// An order for the file that is open.
fn on_file(rt: HostRuntime, session: &mut Session, order: Order, desk: &mut Desk<'_>) -> bool {
    match order {
        Order::Format {
            cells,
            slots,
            erase,
        } => match session.format(cells, slots, erase, desk.medium) {
            Ok(()) => reply::formatted(rt),
            Err(why) => reply::unformatted(why),
        },
        Order::Look { entry } => look(session, entry, desk),
        Order::List => show::list(desk.medium, session.size),
        _ => call_with(rt, session, order, desk),
    }
}

// A file's name, where the line has one that is text.
fn path(line: &[u8], name: Span) -> Option<&str> {
    std::str::from_utf8(line.get(name.from..name.to)?).ok()
}

fn opened(rt: HostRuntime, line: &[u8], name: Span) -> Option<Session> {
    Session::open(rt, path(line, name)?).ok()
}

fn created(rt: HostRuntime, line: &[u8], name: Span) -> Option<Session> {
    Session::create(rt, path(line, name)?).ok()
}

// Open reads the file and starts recovery, which stores nothing. Where it fails, the session before it is kept; else that one's file is closed
// before this one's is read.
fn open(
    rt: HostRuntime,
    session: &mut Option<Session>,
    line: &[u8],
    name: Span,
    desk: &mut Desk<'_>,
) -> bool {
    let Some(mut next) = opened(rt, line, name) else {
        return reply::unopened();
    };
    *session = None;
    next.read(desk.medium);
    say::pair(b"bytes=", next.size as u64);
    let heard = call_with(rt, &mut next, Order::Call(Call::Start), desk);
    *session = Some(next);
    heard
}

// A new file is empty; nothing is started on it. A name that is taken is refused, and the session before it is kept.
fn create(rt: HostRuntime, session: &mut Option<Session>, line: &[u8], name: Span) -> bool {
    let Some(next) = created(rt, line, name) else {
        return reply::taken();
    };
    *session = Some(next);
    reply::made()
}

// One order, and whether the terminal goes on.
fn obey(
    rt: HostRuntime,
    session: &mut Option<Session>,
    order: Order,
    line: &[u8],
    desk: &mut Desk<'_>,
) -> bool {
    match order {
        Order::Quit => false,
        Order::Help => say::help(),
        Order::Nothing => true,
        Order::Open(name) => open(rt, session, line, name, desk),
        Order::New(name) => create(rt, session, line, name),
        _ => match session {
            Some(session) => on_file(rt, session, order, desk),
            None => say::no_file(),
        },
    }
}

// Orders until the input ends, one says quit, the file fails, or nobody takes an answer any more.
fn serve(rt: HostRuntime, line: &mut [u8], desk: &mut Desk<'_>) {
    let mut session = None;
    for _ in 0..u64::MAX {
        let goes_on = match orders::next(rt, line) {
            Ok(order) => obey(rt, &mut session, order, line, desk),
            Err(wrong) => say::usage(wrong),
        };
        if !goes_on {
            return;
        }
    }
}

fn main(rt: HostRuntime) {
    let mut line = [0u8; 4200];
    let mut medium = [0u8; 40993];
    let mut current = [0u64; 1024];
    let mut first = [0u32; 1024];
    let mut last = [0u32; 1024];
    let mut waiting = [0u8; 32768];
    let mut desk = Desk {
        medium: &mut medium,
        current: &mut current,
        first: &mut first,
        last: &mut last,
        waiting: &mut waiting,
    };
    serve(rt, &mut line, &mut desk);
}
