// The numbers of what a host keeps, stored by their places: each part has a writer, and a number too large is cut to its width.
ghost use Rattle.std.specs.Prelude.{◌≡◌, set};
ghost use Rattle.library.specs.Pool.{with_mark};
ghost use Rattle.compare.specs.Cells.{
  byte,
  half,
  thread_of,
  with_head,
  with_sizes_head,
  with_slots,
  thread_with,
  box_with,
  pool_with,
  word_with,
  size_with,
  clock_with,
  threads_with,
  boxes_with,
  pools_with,
  stored,
};

use crate::cells::{
    CLOCK_AT, COUNTERS_AT, Kept, MAILBOXES_AT, POOLS_AT, REFERENCES_AT, SIZES_AT, STEPS_AT,
    WORDS_AT, box_head, sizes_head, thread_cells,
};
use kernel::clock::Clock;
use kernel::records::{Answer, Call, Thread, Words, blank_thread};
use kernel::time::SystemTime;
use library::calls::as_signed;
use library::mailbox::set_message;
use library::pool::{set_length, set_listed};
use library::ring::Positions;
use library::sizes::Sizes;
use library::tables::{Mailbox, Pool, mailbox_at, pool_at};

// ---- parts of a number, and a row in its table

// Rattle's `as` loses nothing, so a number that is cut says so.
fn half(v: u32) -> u16
    ensures { result ≡ half v }
{
    (v % 65536) as u16
}

fn byte(v: u32) -> u8
    ensures { result ≡ byte v }
{
    (v % 256) as u8
}

// The rows with one in the place `at`; where there is no such place, the rows.
fn stored_in<T: Copy, const N: usize>(rows: [T; N], at: usize, row: T) -> [T; N]
    ensures { result ≡ set rows at row }
{
    let mut r = rows;
    if at < N {
        r[at] = row;
    }
    r
}

// ---- one number of a row

fn thread_of(v: [u32; 14]) -> Thread
    ensures { result ≡ thread_of v }
{
    Thread {
        state: half(v[0]),
        place: half(v[1]),
        remaining: v[2],
        pending: v[3],
        awaited: v[4],
        message: as_signed(v[5]),
        call: Call {
            kind: half(v[6]),
            object: half(v[7]),
            operand: v[8],
            timeout: v[9],
        },
        answer: Answer {
            message: as_signed(v[10]),
            datum: v[11],
        },
        cause: v[12],
        step: v[13],
    }
}

#[tactic(auto, unfolding(crate::specs::Cells::thread_with))]
fn thread_with(t: Thread, f: u16, x: u32) -> Thread
    ensures { result ≡ thread_with t f x }
{
    thread_of(stored_in(thread_cells(t), f as usize, x))
}

fn with_head(b: Mailbox, v: [u32; 4]) -> Mailbox
    ensures { result ≡ with_head b v }
{
    let mut r = b;
    r.positions = Positions {
        read: half(v[0]),
        write: half(v[1]),
        count: half(v[2]),
    };
    r.reset = half(v[3]);
    r
}

#[tactic(auto, unfolding(crate::specs::Cells::box_with))]
fn box_with(b: Mailbox, f: u16, x: u32) -> Mailbox
    ensures { result ≡ box_with b f x }
{
    if f < 4 {
        with_head(b, stored_in(box_head(b), f as usize, x))
    } else {
        set_message(b, f - 4, x)
    }
}

fn with_mark(x: Pool, o: u16, mark: u8) -> Pool
    ensures { result ≡ with_mark x o mark }
{
    let mut r = x;
    r.marks = stored_in(x.marks, o as usize, mark);
    r
}

#[tactic(auto, unfolding(crate::specs::Cells::pool_with))]
fn pool_with(x: Pool, f: u16, v: u32) -> Pool
    ensures { result ≡ pool_with x f v }
{
    if f == 0 {
        set_length(x, half(v))
    } else if f < 33 {
        set_listed(x, f - 1, byte(v))
    } else {
        with_mark(x, f - 33, byte(v))
    }
}

#[tactic(auto, unfolding(crate::specs::Cells::word_with))]
fn word_with(w: Words, f: u16, v: u32) -> Words
    ensures { result ≡ word_with w f v }
{
    let mut r = w;
    if f == 0 {
        r.ready = half(v);
    } else if f < 37 {
        r.waiting = stored_in(w.waiting, (f - 1) as usize, half(v));
    } else {
        r.unused = half(v);
    }
    r
}

fn with_sizes_head(z: Sizes, v: [u32; 6]) -> Sizes
    ensures { result ≡ with_sizes_head z v }
{
    let mut r = z;
    r.threads = half(v[0]);
    r.semaphores = half(v[1]);
    r.queues = half(v[2]);
    r.references = half(v[3]);
    r.mailboxes = half(v[4]);
    r.pools = half(v[5]);
    r
}

fn with_slots(z: Sizes, m: u16, n: u16) -> Sizes
    ensures { result ≡ with_slots z m n }
{
    let mut r = z;
    r.slots = stored_in(z.slots, m as usize, n);
    r
}

#[tactic(auto, unfolding(crate::specs::Cells::size_with))]
fn size_with(z: Sizes, f: u16, v: u32) -> Sizes
    ensures { result ≡ size_with z f v }
{
    if f < 6 {
        with_sizes_head(z, stored_in(sizes_head(z), f as usize, v))
    } else {
        with_slots(z, f - 6, half(v))
    }
}

#[tactic(auto, unfolding(crate::specs::Cells::clock_with))]
fn clock_with(c: Clock, f: u16, v: u32) -> Clock
    ensures { result ≡ clock_with c f v }
{
    let mut r = c;
    if f == 0 {
        r.time = SystemTime(v);
    } else {
        r.frequency = v;
    }
    r
}

// ---- one number of a table: that of place k, from the table's first on

fn threads_with(threads: [Thread; 16], k: u16, v: u32) -> [Thread; 16]
    ensures { result ≡ threads_with threads k v }
{
    let at = (k / 14) as usize;
    let t = threads.get(at).copied().unwrap_or(blank_thread());
    stored_in(threads, at, thread_with(t, k % 14, v))
}

fn boxes_with(boxes: [Mailbox; 4], k: u16, v: u32) -> [Mailbox; 4]
    ensures { result ≡ boxes_with boxes k v }
{
    let b = mailbox_at(boxes, k / 20);
    stored_in(boxes, (k / 20) as usize, box_with(b, k % 20, v))
}

fn pools_with(pools: [Pool; 4], k: u16, v: u32) -> [Pool; 4]
    ensures { result ≡ pools_with pools k v }
{
    let x = pool_at(pools, k / 65);
    stored_in(pools, (k / 65) as usize, pool_with(x, k % 65, v))
}

// What is kept with a number stored at a place.
#[tactic(auto, unfolding(crate::specs::Cells::stored))]
pub fn with_cell(a: Kept, i: u16, v: u32) -> Kept
    ensures { result ≡ stored a i v }
{
    let mut r = a;
    let k = a.tables.kernel;
    if i < COUNTERS_AT {
        r.tables.kernel.threads = threads_with(k.threads, i, v);
    } else if i < REFERENCES_AT {
        r.tables.kernel.counters = stored_in(k.counters, (i - COUNTERS_AT) as usize, as_signed(v));
    } else if i < WORDS_AT {
        r.tables.kernel.references = stored_in(k.references, (i - REFERENCES_AT) as usize, byte(v));
    } else if i < STEPS_AT {
        r.tables.kernel.words = word_with(k.words, i - WORDS_AT, v);
    } else if i < MAILBOXES_AT {
        r.tables.kernel.steps = v;
    } else if i < POOLS_AT {
        r.tables.mailboxes = boxes_with(a.tables.mailboxes, i - MAILBOXES_AT, v);
    } else if i < SIZES_AT {
        r.tables.pools = pools_with(a.tables.pools, i - POOLS_AT, v);
    } else if i < CLOCK_AT {
        r.tables.sizes = size_with(a.tables.sizes, i - SIZES_AT, v);
    } else {
        r.clock = clock_with(a.clock, i - CLOCK_AT, v);
    }
    r
}
