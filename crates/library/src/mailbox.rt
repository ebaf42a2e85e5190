// The mailbox rule: reset state first, then room or a message, then a timeout of 0 or sleep.
// A thread's own call and its continuation after a waking run the same function, so a retry sleeps with its full timeout.
// (Who calls and the call stand apart, as `enqueue` and the meanings take them: one struct of both would be one name more.)
ghost use Rattle.std.specs.Prelude.{◌≡◌, ltb};
ghost use Rattle.library.specs.Ring.{given_if};
ghost use Rattle.library.specs.Mailbox.{
  message_at,
  with_message,
  placed_for,
  both_released,
  post_done,
  post_tried,
  fetch_done,
  fetch_tried,
  mailbox_reset,
  mailbox_resumed,
};

use crate::numbers::NO_SLOT;
use crate::ring::Placed;
use crate::sizes::slots_at;
use crate::tables::{Mailbox, Plant, mailbox_at, set_kernel, set_mailbox};
use kernel::kinds::Kind;
use kernel::moves::finish;
use kernel::numbers::{OK, WAS_RESET};
use kernel::places::{readers_place, writers_place};
use kernel::queue::{enqueue, release_all, release_first};
use kernel::records::{Call, Kernel};
use kernel::tables::put;

// The message in a slot; 0 past the slots.
pub fn message_at(b: Mailbox, slot: u16) -> u32
    ensures { result ≡ message_at b slot }
{
    b.messages.get(slot as usize).copied().unwrap_or(0)
}

pub fn set_message(b: Mailbox, slot: u16, x: u32) -> Mailbox
    ensures { result ≡ with_message b slot x }
{
    let mut r = b;
    put(&mut r.messages, slot as usize, x);
    r
}

// Where a message goes: at the write place, or ahead of the read place.
#[tactic(auto, unfolding(crate::specs::Ring::posted, crate::specs::Ring::posted_ahead))]
fn place_for(b: Mailbox, kind: u16, slots: u16) -> Option<Placed>
    ensures { result ≡ given_if (ltb b.positions.count slots) (placed_for b kind slots) }
{
    if kind == Kind::PostAhead as u16 {
        b.positions.post_ahead(slots)
    } else {
        b.positions.post(slots)
    }
}

// The post of a call has a slot: the message goes in, and the first reader is released.
#[tactic(auto, unfolding(crate::specs::Mailbox::post_done))]
fn end_post(p: Plant, i: u8, call: Call, placed: Placed) -> Plant
    ensures { result ≡ post_done p i call placed }
{
    let mailboxes = p.mailboxes;
    let b = mailbox_at(mailboxes, call.object);
    let moved = Mailbox {
        positions: placed.positions,
        ..b
    };
    let next = set_message(moved, placed.slot, call.operand);
    let released = release_first(p.kernel, readers_place(call.object), OK);
    set_mailbox(set_kernel(p, finish(released, i, OK, 0)), call.object, next)
}

// Thread i, or an interrupt, posts the operand of a call: chMBPostTimeoutS, chMBPostAheadTimeoutS.
#[tactic(auto, unfolding(crate::specs::Mailbox::post_tried, crate::specs::Ring::posted, crate::specs::Ring::posted_ahead))]
pub fn try_post(p: Plant, i: u8, call: Call) -> Plant
    ensures { result ≡ post_tried p i call }
{
    let mailboxes = p.mailboxes;
    let b = mailbox_at(mailboxes, call.object);
    if b.reset != 0 {
        return set_kernel(p, finish(p.kernel, i, WAS_RESET, 0));
    }
    // (The number stays beside `None`: `post_tried` and `fetch_tried` take a damaged ring's place 255 for no slot.)
    match place_for(b, call.kind, slots_at(p.sizes, call.object)) {
        Some(placed) if placed.slot != NO_SLOT => end_post(p, i, call, placed),
        _ => set_kernel(p, enqueue(p.kernel, i, writers_place(call.object), call)),
    }
}

// The fetch of a call has a slot: the message comes out, and the first writer is released.
#[tactic(auto, unfolding(crate::specs::Mailbox::fetch_done))]
fn end_fetch(p: Plant, i: u8, call: Call, placed: Placed) -> Plant
    ensures { result ≡ fetch_done p i call placed }
{
    let mailboxes = p.mailboxes;
    let b = mailbox_at(mailboxes, call.object);
    let next = Mailbox {
        positions: placed.positions,
        ..b
    };
    let released = release_first(p.kernel, writers_place(call.object), OK);
    let done = finish(released, i, OK, message_at(b, placed.slot));
    set_mailbox(set_kernel(p, done), call.object, next)
}

// Thread i, or an interrupt, fetches a message, which is the datum of its call: chMBFetchTimeoutS.
// (One function for this and `try_post` would take the slot, the queue and the end as three arguments, two of them closures: no plainer.)
#[tactic(auto, unfolding(crate::specs::Mailbox::fetch_tried, crate::specs::Ring::fetched))]
pub fn try_fetch(p: Plant, i: u8, call: Call) -> Plant
    ensures { result ≡ fetch_tried p i call }
{
    let mailboxes = p.mailboxes;
    let b = mailbox_at(mailboxes, call.object);
    if b.reset != 0 {
        return set_kernel(p, finish(p.kernel, i, WAS_RESET, 0));
    }
    match b.positions.fetch(slots_at(p.sizes, call.object)) {
        Some(placed) if placed.slot != NO_SLOT => end_fetch(p, i, call, placed),
        _ => set_kernel(p, enqueue(p.kernel, i, readers_place(call.object), call)),
    }
}

// Both queues of a mailbox are released with -2, writers first.
#[tactic(auto, unfolding(crate::specs::Mailbox::both_released))]
fn release_both(k: Kernel, number: u16) -> Kernel
    ensures { result ≡ both_released k number }
{
    let writers = release_all(k, writers_place(number), WAS_RESET);
    release_all(writers, readers_place(number), WAS_RESET)
}

// A mailbox is emptied and goes into reset state; all who wait on it are made ready with -2: chMBResetI.
#[tactic(auto, unfolding(crate::specs::Mailbox::mailbox_reset))]
pub fn reset_mailbox(p: Plant, number: u16) -> Plant
    ensures { result ≡ mailbox_reset p number }
{
    let mailboxes = p.mailboxes;
    let b = mailbox_at(mailboxes, number);
    let next = Mailbox {
        positions: b.positions.reset().positions,
        reset: 1,
        ..b
    };
    let released = release_both(p.kernel, number);
    set_mailbox(set_kernel(p, released), number, next)
}

// A mailbox leaves reset state: chMBResumeX.
#[tactic(auto, unfolding(crate::specs::Mailbox::mailbox_resumed))]
pub fn resume_mailbox(p: Plant, number: u16) -> Plant
    ensures { result ≡ mailbox_resumed p number }
{
    let mailboxes = p.mailboxes;
    let b = mailbox_at(mailboxes, number);
    set_mailbox(p, number, Mailbox { reset: 0, ..b })
}
