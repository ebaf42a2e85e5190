// The numbers of what a host keeps, as they lie: each has a place, and is read by it. A row is an array of numbers.
ghost use Rattle.std.specs.Prelude.{◌≡◌, get_or};
ghost use Rattle.std.specs.Int.{w32};
ghost use Rattle.std.proofs.Common.{of_z};
ghost use Rattle.library.specs.Pool.{mark_at};
ghost use Rattle.compare.specs.Cells.{thread_cells, box_head, sizes_head, thread_cell, box_cell, pool_cell, word_cell, size_cell, clock_cell, cell_at};

use kernel::clock::Clock;
use kernel::records::{Thread, Words};
use kernel::tables::{counter_at, holder_at, thread_at};
use kernel::words::waiting_at;
use library::mailbox::message_at;
use library::pool::listed_at;
use library::sizes::{Sizes, slots_at};
use library::tables::{Mailbox, Pool, Tables, mailbox_at, pool_at};

// Where each part begins: 16 threads of 14 numbers, 36 counters, 8 references, 38 words, the step number, 4 mailboxes of 20, 4 pools of
// 65, 10 sizes, and the 2 numbers of the clock.
pub const COUNTERS_AT: u16 = 16 * 14;

pub const REFERENCES_AT: u16 = COUNTERS_AT + 36;

pub const WORDS_AT: u16 = REFERENCES_AT + 8;

pub const STEPS_AT: u16 = WORDS_AT + 38;

pub const MAILBOXES_AT: u16 = STEPS_AT + 1;

pub const POOLS_AT: u16 = MAILBOXES_AT + 4 * 20;

pub const SIZES_AT: u16 = POOLS_AT + 4 * 65;

pub const CLOCK_AT: u16 = SIZES_AT + 10;

pub const CELL_COUNT: u16 = CLOCK_AT + 2;

// Tables, and the clock beside them.
#[derive(Clone, Copy)]
pub struct Kept {
    pub tables: Tables,
    pub clock: Clock,
}

// A signed number's 32 bits.
pub fn bits(m: i32) -> u32
    ensures { result ≡ of_z w32 m }
{
    m.cast_unsigned()
}

// Number f of a row; 0 past its numbers.
fn number_in(row: &[u32], f: u16) -> u32
    ensures { result ≡ get_or row.now f 0 }
{
    row.get(f as usize).copied().unwrap_or(0)
}

pub(crate) fn thread_cells(t: Thread) -> [u32; 14]
    ensures { result ≡ thread_cells t }
{
    [
        t.state as u32,
        t.place as u32,
        t.remaining,
        t.pending,
        t.awaited,
        bits(t.message),
        t.call.kind as u32,
        t.call.object as u32,
        t.call.operand,
        t.call.timeout,
        bits(t.answer.message),
        t.answer.datum,
        t.cause,
        t.step,
    ]
}

#[tactic(auto, unfolding(crate::specs::Cells::thread_cell))]
fn thread_cell(t: Thread, f: u16) -> u32
    ensures { result ≡ thread_cell t f }
{
    number_in(&thread_cells(t), f)
}

pub(crate) fn box_head(b: Mailbox) -> [u32; 4]
    ensures { result ≡ box_head b }
{
    [
        b.positions.read as u32,
        b.positions.write as u32,
        b.positions.count as u32,
        b.reset as u32,
    ]
}

#[tactic(auto, unfolding(crate::specs::Cells::box_cell))]
fn box_cell(b: Mailbox, f: u16) -> u32
    ensures { result ≡ box_cell b f }
{
    if f < 4 {
        number_in(&box_head(b), f)
    } else {
        message_at(b, f - 4)
    }
}

// An object's mark; absent past the objects.
fn mark_in(x: Pool, o: u16) -> u8
    ensures { result ≡ mark_at x o }
{
    x.marks.get(o as usize).copied().unwrap_or(0)
}

#[tactic(auto, unfolding(crate::specs::Cells::pool_cell))]
fn pool_cell(x: Pool, f: u16) -> u32
    ensures { result ≡ pool_cell x f }
{
    if f == 0 {
        x.length as u32
    } else if f < 33 {
        listed_at(x, f - 1) as u32
    } else {
        mark_in(x, f - 33) as u32
    }
}

#[tactic(auto, unfolding(crate::specs::Cells::word_cell))]
fn word_cell(w: Words, f: u16) -> u32
    ensures { result ≡ word_cell w f }
{
    if f == 0 {
        w.ready as u32
    } else if f < 37 {
        waiting_at(w, (f - 1) as u32) as u32
    } else {
        w.unused as u32
    }
}

pub(crate) fn sizes_head(z: Sizes) -> [u32; 6]
    ensures { result ≡ sizes_head z }
{
    [
        z.threads as u32,
        z.semaphores as u32,
        z.queues as u32,
        z.references as u32,
        z.mailboxes as u32,
        z.pools as u32,
    ]
}

// Number f of the sizes: 0 to 5 the numbers of rows, then the slots of each mailbox.
#[tactic(auto, unfolding(crate::specs::Cells::size_cell))]
pub fn size_cell(z: Sizes, f: u16) -> u32
    ensures { result ≡ size_cell z f }
{
    if f < 6 {
        number_in(&sizes_head(z), f)
    } else {
        slots_at(z, f - 6) as u32
    }
}

#[tactic(auto, unfolding(crate::specs::Cells::clock_cell))]
fn clock_cell(c: Clock, f: u16) -> u32
    ensures { result ≡ clock_cell c f }
{
    if f == 0 { c.time.0 } else { c.frequency }
}

// The number at a place.
#[tactic(auto, unfolding(crate::specs::Cells::cell_at))]
pub fn cell_at(a: Kept, i: u16) -> u32
    ensures { result ≡ cell_at a i }
{
    let t = a.tables;
    let k = t.kernel;
    if i < COUNTERS_AT {
        thread_cell(thread_at(k.threads, (i / 14) as u8), i % 14)
    } else if i < REFERENCES_AT {
        bits(counter_at(k.counters, i - COUNTERS_AT))
    } else if i < WORDS_AT {
        holder_at(k.references, i - REFERENCES_AT) as u32
    } else if i < STEPS_AT {
        word_cell(k.words, i - WORDS_AT)
    } else if i < MAILBOXES_AT {
        k.steps
    } else if i < POOLS_AT {
        box_cell(
            mailbox_at(t.mailboxes, (i - MAILBOXES_AT) / 20),
            (i - MAILBOXES_AT) % 20,
        )
    } else if i < SIZES_AT {
        pool_cell(pool_at(t.pools, (i - POOLS_AT) / 65), (i - POOLS_AT) % 65)
    } else if i < CLOCK_AT {
        size_cell(t.sizes, i - SIZES_AT)
    } else {
        clock_cell(a.clock, i - CLOCK_AT)
    }
}
