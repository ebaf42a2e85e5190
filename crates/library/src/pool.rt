// Guarded pools: a semaphore beside a last-in first-out list of free objects.
// Alloc goes by the counter and never by the list: an object that is promised to a woken thread is still listed, and is not given away.
ghost use Rattle.std.specs.Prelude.{◌≡◌};
ghost use Rattle.library.specs.Pool.{listed_at, mark_at, with_listed, with_mark, with_length, top_of, popped, pushed, handed_over, alloc_tried, put_back};

use crate::numbers::{ABSENT, FREE_MARK, OUT};
use crate::tables::{Plant, Pool, pool_at, set_kernel, set_pool};
use kernel::moves::finish;
use kernel::numbers::OK;
use kernel::places::pool_place;
use kernel::queue::enqueue;
use kernel::records::Call;
use kernel::semaphore::{signal, take};
use kernel::tables::{counter_at, put};

// The object at a place of the free list; 0 past the list.
pub fn listed_at(x: Pool, i: u16) -> u8
    ensures { result ≡ listed_at x i }
{
    x.list.get(i as usize).copied().unwrap_or(0)
}

pub fn set_listed(x: Pool, i: u16, o: u8) -> Pool
    ensures { result ≡ with_listed x i o }
{
    let mut r = x;
    put(&mut r.list, i as usize, o);
    r
}

// An object's mark; absent past the objects.
pub fn mark_at(x: Pool, o: u8) -> u8
    ensures { result ≡ mark_at x o }
{
    x.marks.get(o as usize).copied().unwrap_or(ABSENT)
}

fn set_mark(x: Pool, o: u8, mark: u8) -> Pool
    ensures { result ≡ with_mark x o mark }
{
    let mut r = x;
    put(&mut r.marks, o as usize, mark);
    r
}

pub fn set_length(x: Pool, length: u16) -> Pool
    ensures { result ≡ with_length x length }
{
    Pool { length, ..x }
}

// 0 stays the answer for an empty list: `handed_over` says that a damaged pool gives out 0.
// The top of the free list: its last used place; 0 for an empty one.
fn top_of(x: Pool) -> u8
    ensures { result ≡ top_of x }
{
    if 0 < x.length {
        listed_at(x, x.length - 1)
    } else {
        0
    }
}

// The pool without its top, which is out; an empty one stays.
#[tactic(auto, unfolding(crate::specs::Pool::popped))]
fn pop(x: Pool) -> Pool
    ensures { result ≡ popped x }
{
    if 0 < x.length {
        set_mark(set_length(x, x.length - 1), top_of(x), OUT)
    } else {
        x
    }
}

// The pool with an object on top, which is free; a full one stays.
#[tactic(auto, unfolding(crate::specs::Pool::pushed))]
fn push(x: Pool, o: u8) -> Pool
    ensures { result ≡ pushed x o }
{
    if x.length < 32 {
        set_mark(
            set_length(set_listed(x, x.length, o), x.length + 1),
            o,
            FREE_MARK,
        )
    } else {
        x
    }
}

// Thread i, or an interrupt, takes the top of a pool as the datum of its call.
#[tactic(auto, unfolding(crate::specs::Pool::handed_over))]
pub fn hand_over(p: Plant, i: u8, number: u16) -> Plant
    ensures { result ≡ handed_over p i number }
{
    let pools = p.pools;
    let x = pool_at(pools, number);
    let done = finish(p.kernel, i, OK, top_of(x) as u32);
    set_pool(set_kernel(p, done), number, pop(x))
}

// Thread i, or an interrupt, waits for an object: chGuardedPoolAllocTimeoutS.
#[tactic(auto, unfolding(crate::specs::Pool::alloc_tried))]
pub fn try_alloc(p: Plant, i: u8, call: Call) -> Plant
    ensures { result ≡ alloc_tried p i call }
{
    let k = p.kernel;
    let place = pool_place(call.object);
    let counters = k.counters;
    if 0 < counter_at(counters, place) {
        hand_over(set_kernel(p, take(k, place)), i, call.object)
    } else {
        set_kernel(p, enqueue(k, i, place, call))
    }
}

// An object is put on top of a pool, and the pool's semaphore is signalled: chGuardedPoolFreeI, chGuardedPoolAddI.
// A pool's counter is at most 32, so that the signal counts: whether it did is dropped.
#[tactic(auto, unfolding(crate::specs::Pool::put_back))]
pub fn put_back(p: Plant, number: u16, o: u8) -> Plant
    ensures { result ≡ put_back p number o }
{
    let pools = p.pools;
    let x = pool_at(pools, number);
    let done = signal(p.kernel, pool_place(number));
    set_pool(set_kernel(p, done.kernel), number, push(x, o))
}
