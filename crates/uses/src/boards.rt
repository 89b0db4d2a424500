//! Calls on a gate, and on a board with one buffer.
ghost use Rattle.std.specs.Prelude.{◌≡◌};

use crate::buffers::show_listing;
use crate::calls::{Calls, point};
use crate::clients::plans_of;
use crate::seats::words_of;
use clients_core::{Board, Gate, OpenGate};
use point_core::{Context, Point, Refusal, Usage};
use resv_core::{Act, Settled, SharedTable};
use std::alloc::Global;
use words_core::{Seat, Whole, Words};

pub(crate) fn make_calls(rt: &HostRuntime, calls: &mut Calls) {
    calls.tell(rt, "enter", &OpenGate.enter(1, 0));
    OpenGate.leave(1, 0);
    if let Ok((words, seat)) = words_of(rt, calls, 1, 1, 0) {
        use_board(rt, calls, &words, seat);
        drop(words);
    }
}

fn use_board(rt: &HostRuntime, calls: &mut Calls, words: &Words, mut seat: Seat)
    requires own { seat.words ≡ words.now }
    requires sizes { (words.now.contexts ≡ 1) × (words.now.buffers ≡ 1) }
{
    if let Ok(board) = Board::empty(rt.alloc(), words) {
        put_and_look(rt, calls, &board, words, &mut seat);
        settle(rt, calls, &board, words, seat);
        drop(board);
    }
}

/// Puts a reader's point 4 of the first context, and looks for it.
fn put_and_look(rt: &HostRuntime, calls: &mut Calls, board: &Board, words: &Words, seat: &mut Seat)
    requires own { (seat.old.words ≡ words.now) × (board.now ≡ words.now) }
    requires sizes { (words.now.contexts ≡ 1) × (words.now.buffers ≡ 1) }
    ensures own { seat.new.words ≡ words.now }
{
    let ctx = Context::at(0);
    let put = board.put(words, seat, 0, Point { ctx, value: 4 }, Usage::Read);
    calls.tell(rt, "put", &put);
    if calls.allows(rt, "export") {
        let listing = board.export(rt.alloc(), words, seat, 0, Usage::Read);
        show_listing(rt, calls, &listing);
    }
}

/// Settles the plan of that put, and takes the seat back.
fn settle(rt: &HostRuntime, calls: &mut Calls, board: &Board, words: &Words, seat: Seat)
    requires own { (seat.words ≡ words.now) × (board.now ≡ words.now) }
{
    if let Ok(mut all) = seat.gather() {
        if calls.allows(rt, "settle") {
            let settled = settled(rt.alloc(), board, words, &mut all);
            calls.tell(rt, "settle", &settled);
        }
        calls.tell(rt, "seat", &all.seat().parts());
    }
}

fn settled(alloc: Global, board: &Board, words: &Words, all: &mut Whole) -> Result<Settled, Refusal>
    requires own { (all.old.words ≡ words.now) × (board.now ≡ words.now) }
{
    let plans = plans_of(alloc, &[&[Act::Put(0, point(0, 4), Usage::Read)]])?;
    board.settle(alloc, words, all, plans.as_slice())
}
