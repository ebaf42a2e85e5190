// The order of the fields, and which of them count.
ghost use Rattle.std.specs.Prelude.{◌-◌, ◌≡◌};
ghost use Rattle.compare.specs.Order.{called, named, row_at, place_named, cell_of, slot_used, box_counts, pool_counts, counts_named};

use crate::cells::{CLOCK_AT, COUNTERS_AT, Kept, MAILBOXES_AT, POOLS_AT, REFERENCES_AT, STEPS_AT};
use library::ring::Positions;
use library::sizes::slots_at;
use library::tables::{mailbox_at, pool_at};

// Where each object's fields begin: 16 threads of 14 fields, 8 references, 8 queues, 16 semaphores, 4 mailboxes of 22, 4 pools of 66, the
// 2 of the clock, and the step number.
pub const REFERENCES_FROM: u16 = 16 * 14;

pub const QUEUES_FROM: u16 = REFERENCES_FROM + 8;

pub const SEMAPHORES_FROM: u16 = QUEUES_FROM + 8;

pub const MAILBOXES_FROM: u16 = SEMAPHORES_FROM + 16;

pub const POOLS_FROM: u16 = MAILBOXES_FROM + 4 * 22;

pub const CLOCK_FROM: u16 = POOLS_FROM + 4 * 66;

pub const STEPS_FROM: u16 = CLOCK_FROM + 2;

// How many fields there are.
pub const FIELDS: u16 = STEPS_FROM + 1;

// A field is named by its object (0 thread, 1 reference, 2 queue, 3 semaphore, 4 mailbox, 5 pool, 6 clock, 7 step number), the object's
// number, and the field.
// The object stays a number: C reads it in an entry of five, and `place_of` answers for any number.
#[derive(Clone, Copy)]
pub struct Name {
    pub object: u16,
    pub number: u16,
    pub field: u16,
}

fn call(object: u16, number: u16, field: u16) -> Name
    ensures { result ≡ called object number field }
{
    Name {
        object,
        number,
        field,
    }
}

// The name of field k of the order.
#[tactic(auto, unfolding(crate::specs::Order::named))]
pub fn name_of(k: u16) -> Name
    ensures { result ≡ named k }
{
    if k < REFERENCES_FROM {
        call(0, k / 14, k % 14)
    } else if k < QUEUES_FROM {
        call(1, k - REFERENCES_FROM, 0)
    } else if k < SEMAPHORES_FROM {
        call(2, k - QUEUES_FROM, 0)
    } else if k < MAILBOXES_FROM {
        call(3, k - SEMAPHORES_FROM, 0)
    } else if k < POOLS_FROM {
        call(4, (k - MAILBOXES_FROM) / 22, (k - MAILBOXES_FROM) % 22)
    } else if k < CLOCK_FROM {
        call(5, (k - POOLS_FROM) / 66, (k - POOLS_FROM) % 66)
    } else if k < STEPS_FROM {
        call(6, 0, k - CLOCK_FROM)
    } else {
        call(7, 0, k - STEPS_FROM)
    }
}

// Where field k of the order lies. A mailbox's first two fields are its writers' and its readers' counter, a pool's first is its counter.
#[tactic(auto, unfolding(crate::specs::Order::cell_of))]
pub fn cell_of(k: u16) -> u16
    ensures { result ≡ cell_of k }
{
    if k < REFERENCES_FROM {
        k
    } else if k < QUEUES_FROM {
        REFERENCES_AT + (k - REFERENCES_FROM)
    } else if k < SEMAPHORES_FROM {
        COUNTERS_AT + 20 + (k - QUEUES_FROM)
    } else if k < MAILBOXES_FROM {
        COUNTERS_AT + (k - SEMAPHORES_FROM)
    } else if k < POOLS_FROM {
        let m = (k - MAILBOXES_FROM) / 22;
        let f = (k - MAILBOXES_FROM) % 22;
        if f < 2 {
            COUNTERS_AT + 28 + 4 * f + m
        } else {
            MAILBOXES_AT + 20 * m + (f - 2)
        }
    } else if k < CLOCK_FROM {
        let q = (k - POOLS_FROM) / 66;
        let f = (k - POOLS_FROM) % 66;
        if f == 0 {
            COUNTERS_AT + 16 + q
        } else {
            POOLS_AT + 65 * q + (f - 1)
        }
    } else if k < STEPS_FROM {
        CLOCK_AT + (k - CLOCK_FROM)
    } else {
        STEPS_AT
    }
}

// Whether slot s of a ring is used.
#[tactic(auto, unfolding(crate::specs::Order::slot_used))]
fn slot_used(q: Positions, slots: u16, s: u16) -> bool
    ensures { result ≡ slot_used q slots s }
{
    s < slots && (s as u32 + slots.saturating_sub(q.read) as u32) % (slots as u32) < q.count as u32
}

#[tactic(auto, unfolding(crate::specs::Order::box_counts))]
fn box_counts(a: Kept, x: Name) -> bool
    ensures { result ≡ box_counts a x }
{
    let t = a.tables;
    x.number < t.sizes.mailboxes
        && (x.field < 6
            || slot_used(
                mailbox_at(t.mailboxes, x.number).positions,
                slots_at(t.sizes, x.number),
                x.field - 6,
            ))
}

#[tactic(auto, unfolding(crate::specs::Order::pool_counts))]
fn pool_counts(a: Kept, x: Name) -> bool
    ensures { result ≡ pool_counts a x }
{
    let t = a.tables;
    x.number < t.sizes.pools
        && (x.field < 2 || 34 <= x.field || x.field - 2 < pool_at(t.pools, x.number).length)
}

// Whether a field counts: its row is in use, and of a mailbox the slot, of a free list the place.
#[tactic(auto, unfolding(crate::specs::Order::counts_named))]
pub fn counts(a: Kept, x: Name) -> bool
    ensures { result ≡ counts_named a x }
{
    let t = a.tables;
    let z = t.sizes;
    match x.object {
        0 => x.number < z.threads,
        1 => x.number < z.references,
        2 => x.number < z.queues,
        3 => x.number < z.semaphores,
        4 => box_counts(a, x),
        5 => pool_counts(a, x),
        _ => true,
    }
}

// Field f of row n of an object that has so many rows of so many fields, counted from the object's first; FIELDS where there is none.
fn row_place(first: u16, rows: u16, width: u16, n: u32, f: u32) -> u32
    ensures { result ≡ row_at first rows width n f }
{
    if n < rows as u32 && f < width as u32 {
        first as u32 + n * width as u32 + f
    } else {
        FIELDS as u32
    }
}

// The field of a name, whatever numbers it has; FIELDS for a name that no field has.
#[tactic(auto, unfolding(crate::specs::Order::place_named))]
pub fn place_of(object: u32, number: u32, field: u32) -> u32
    ensures { result ≡ place_named (called object number field) }
{
    match object {
        0 => row_place(0, 16, 14, number, field),
        1 => row_place(REFERENCES_FROM, 8, 1, number, field),
        2 => row_place(QUEUES_FROM, 8, 1, number, field),
        3 => row_place(SEMAPHORES_FROM, 16, 1, number, field),
        4 => row_place(MAILBOXES_FROM, 4, 22, number, field),
        5 => row_place(POOLS_FROM, 4, 66, number, field),
        6 => row_place(CLOCK_FROM, 1, 2, number, field),
        7 => row_place(STEPS_FROM, 1, 1, number, field),
        _ => FIELDS as u32,
    }
}
