// Settling: while the running thread has an unfinished call, that call is continued and the running thread is chosen anew.
// `settle` and `continue_call` call each other; the budget is the number that falls. After a call is continued, settling goes on
// with half of the budget and then with the rest, so that calls are nested as often as the budget can be halved: the stack that
// a step needs grows with the logarithm of the budget, and not with the budget.
ghost use Rattle.std.specs.Prelude.{◌≡◌};
ghost use Rattle.library.specs.Settling.{is_box_call, does_more, answered_only, continued, settled};

use crate::causes::cause_of;
use crate::mailbox::{try_fetch, try_post};
use crate::pool::hand_over;
use crate::tables::{Plant, set_kernel};
use kernel::event::take_flags;
use kernel::kinds::Kind;
use kernel::moves::finish;
use kernel::records::Thread;
use kernel::tables::thread_at;
use kernel::waiters::{first_ready, running_free};

// Whether a kind is a mailbox's or a pool's.
pub fn is_box_call(kind: u16) -> bool
    ensures { result ≡ is_box_call kind }
{
    matches!(
        Kind::try_from(kind),
        Ok(Kind::Post | Kind::PostAhead | Kind::Fetch | Kind::Alloc)
    )
}

// Whether a kind's call, woken with 0, does more than answer: an event wait, a mailbox's call or a pool's.
fn does_more(kind: u16) -> bool
    ensures { result ≡ does_more kind }
{
    kind == Kind::EventWait as u16 || is_box_call(kind)
}

// Whether the call is answered by its wake message alone: any other, and any that was not woken with 0.
fn is_answered_only(t: Thread) -> bool
    ensures { result ≡ answered_only t }
{
    !does_more(t.call.kind) || t.message != 0
}

// Thread i's unfinished call goes on after its waking. Whom it wakes, it wakes by its own cause.
#[tactic(auto, unfolding(crate::specs::Settling::went_on))]
fn go_on(p: Plant, i: u8) -> Plant
    ensures { result ≡ continued p i }
{
    let threads = p.kernel.threads;
    let t = thread_at(threads, i);
    let call = t.call;
    let kind = call.kind;
    let cause = cause_of(kind).number();
    let mut q = p;
    q.kernel.cause = cause;
    if is_answered_only(t) {
        return set_kernel(q, finish(q.kernel, i, t.message, 0));
    }
    match Kind::try_from(kind) {
        Ok(Kind::EventWait) => set_kernel(q, take_flags(q.kernel, i, call.operand)),
        Ok(Kind::Fetch) => try_fetch(q, i, call),
        Ok(Kind::Alloc) => hand_over(q, i, call.object),
        _ => try_post(q, i, call),
    }
}

// The plant once the running thread has no unfinished call, or the budget is spent.
#[cycle(continue_call_settle)]
#[tactic(auto, unfolding(crate::specs::Settling::settled))]
pub fn settle(p: Plant, budget: u16) -> Plant
    ensures { result ≡ settled budget p }
{
    if budget == 0 {
        return p;
    }
    if running_free(p.kernel) {
        return p;
    }
    continue_call(p, first_ready(p.kernel), budget - 1)
}

// Thread i's call is continued, and settling goes on: with half of the budget, then with the rest. Where nothing is left to settle,
// which is most often so, whole tables need not change hands for it.
#[cycle(continue_call_settle)]
#[tactic(auto, unfolding(crate::specs::Settling::settled))]
pub fn continue_call(p: Plant, i: u8, budget: u16) -> Plant
    ensures { result ≡ settled budget (continued p i) }
{
    let half = budget / 2;
    let mut r = go_on(p, i);
    if running_free(r.kernel) {
        return r;
    }
    r = settle(r, half);
    r = settle(r, budget - half);
    r
}
