// The rows of all tables and of the words, in the order of docs/LISTING.md. A table is a part, by its number; `views` has the loops.
ghost use Rattle.std.specs.Prelude.{◌≡◌};
ghost use Rattle.text.specs.Parts.{part_number};
ghost use Rattle.text.specs.Tables.{least, place_item, wait_item, thread_row, reset_of, mailbox_row, free_row, marks_row, pool_row, word_place, word_row, table_row};

use crate::items::{Cells, Item, Line, brief, listing};
use crate::parts::Part;
use kernel::records::{Thread, Words};
use kernel::states::State;
use kernel::tables::{counter_at, holder_at, thread_at};
use kernel::words::waiting_at;
use library::sizes::slots_at;
use library::tables::{Pool, Tables, mailbox_at, pool_at};

// As many rows as the sizes say, and as the table has.
pub(crate) fn least(n: u16, most: u8) -> u8
    ensures { result ≡ least n most }
{
    if n < most as u16 { n as u8 } else { most }
}

// A place of the table of counters: s, p, q, w (writers) or f (readers), and the object's number.
fn queued_at(place: u16) -> Item
    ensures { result ≡ place_item place }
{
    if place < 16 {
        Item::Lettered(b's', place)
    } else if place < 20 {
        Item::Lettered(b'p', place - 16)
    } else if place < 28 {
        Item::Lettered(b'q', place - 20)
    } else if place < 32 {
        Item::Lettered(b'w', place - 28)
    } else {
        Item::Lettered(b'f', place - 32)
    }
}

// Where a thread waits: r and a reference's number if it is suspended, a dash if it waits on no object.
fn waits_at(state: u16, place: u16) -> Item
    ensures { result ≡ wait_item state place }
{
    if state == State::Queued as u16 {
        queued_at(place)
    } else if state == State::Suspended as u16 {
        Item::Lettered(b'r', place)
    } else {
        Item::Dash
    }
}

// What a thread waits for, its unfinished call, its last answer, and the cause and the step of its last waking.
#[tactic(auto, unfolding(crate::specs::Tables::thread_row))]
fn thread_row(i: u8, t: Thread) -> Line
    ensures { result ≡ thread_row i t }
{
    let place = waits_at(t.state, t.place);
    let call = t.call;
    let answer = t.answer;
    Line {
        word: *b"thread\0\0\0",
        items: [
            Item::Number(i as u32),
            Item::Number(t.state as u32),
            place,
            Item::Number(t.remaining),
            Item::Number(t.pending),
            Item::Number(t.awaited),
            Item::Signed(t.message),
            Item::Number(call.kind as u32),
            Item::Number(call.object as u32),
            Item::Number(call.operand),
            Item::Number(call.timeout),
            Item::Signed(answer.message),
            Item::Number(answer.datum),
            Item::Number(t.cause),
            Item::Number(t.step),
        ],
        cells: Cells::Empty,
        end: Item::End,
    }
}

// 0 or 1.
fn reset_of(n: u16) -> u32
    ensures { result ≡ reset_of n }
{
    if n == 0 { 0 } else { 1 }
}

// A mailbox's positions, its reset state, who waits, and its slots.
#[tactic(auto, unfolding(crate::specs::Tables::mailbox_row))]
fn mailbox_row(t: Tables, i: u8) -> Line
    ensures { result ≡ mailbox_row t i }
{
    let counters = t.kernel.counters;
    let boxes = t.mailboxes;
    let b = mailbox_at(boxes, i as u16);
    let q = b.positions;
    listing(
        *b"mailbox\0\0",
        &[
            Item::Number(i as u32),
            Item::Number(q.read as u32),
            Item::Number(q.write as u32),
            Item::Number(q.count as u32),
            Item::Number(reset_of(b.reset)),
            Item::Signed(counter_at(counters, 28 + i as u16)),
            Item::Signed(counter_at(counters, 32 + i as u16)),
        ],
        Cells::Messages(b, least(slots_at(t.sizes, i as u16), 16)),
    )
}

// A pool's counter and free list.
#[tactic(auto, unfolding(crate::specs::Tables::free_row))]
fn free_row(n: u8, p: Pool, count: i32) -> Line
    ensures { result ≡ free_row n p count }
{
    listing(
        *b"pool\0\0\0\0\0",
        &[
            Item::Number(n as u32),
            Item::Signed(count),
            Item::Number(p.length as u32),
        ],
        Cells::Objects(p, least(p.length, 32)),
    )
}

// And its marks.
#[tactic(auto, unfolding(crate::specs::Tables::marks_row))]
fn marks_row(n: u8, p: Pool) -> Line
    ensures { result ≡ marks_row n p }
{
    listing(
        *b"marks\0\0\0\0",
        &[Item::Number(n as u32)],
        Cells::Marks(p),
    )
}

// Row i of the pools, two a pool.
#[tactic(auto, unfolding(crate::specs::Tables::pool_row))]
fn pool_row(t: Tables, i: u8) -> Line
    ensures { result ≡ pool_row t i }
{
    let n = i / 2;
    let counters = t.kernel.counters;
    let pools = t.pools;
    let p = pool_at(pools, n as u16);
    if i % 2 == 0 {
        free_row(n, p, counter_at(counters, 16 + n as u16))
    } else {
        marks_row(n, p)
    }
}

// The place of word i of an object's words.
fn word_place(part: Part, i: u8) -> u16
    ensures { result ≡ word_place (part_number part) i }
{
    let at = i as u16;
    match part {
        Part::SemaphoreWords => at,
        Part::QueueWords => 20 + at,
        Part::MailboxWords => 28 + 4 * (at % 2) + at / 2,
        _ => 16 + at,
    }
}

// Row i of the words.
#[tactic(auto, unfolding(crate::specs::Tables::word_row))]
pub(crate) fn word_row(w: Words, part: Part, i: u8) -> Line
    ensures { result ≡ word_row w (part_number part) i }
{
    match part {
        Part::ReadyWord => brief(
            *b"ready\0\0\0\0",
            Item::Number(w.ready as u32),
            Item::Nothing,
        ),
        _ => {
            let place = word_place(part, i);
            let word = waiting_at(w, place as u32);
            brief(*b"waiting\0\0", queued_at(place), Item::Number(word as u32))
        }
    }
}

// Row i of a table.
#[tactic(auto, unfolding(crate::specs::Tables::table_row))]
pub(crate) fn table_row(t: Tables, part: Part, i: u8) -> Line
    ensures { result ≡ table_row t (part_number part) i }
{
    let k = t.kernel;
    let threads = k.threads;
    let counters = k.counters;
    let references = k.references;
    match part {
        Part::Threads => thread_row(i, thread_at(threads, i)),
        Part::Semaphores => brief(
            *b"semaphore",
            Item::Number(i as u32),
            Item::Signed(counter_at(counters, i as u16)),
        ),
        Part::Queues => brief(
            *b"queue\0\0\0\0",
            Item::Number(i as u32),
            Item::Signed(counter_at(counters, 20 + i as u16)),
        ),
        Part::References => brief(
            *b"reference",
            Item::Number(i as u32),
            Item::Number(holder_at(references, i as u16) as u32),
        ),
        Part::Mailboxes => mailbox_row(t, i),
        _ => pool_row(t, i),
    }
}
