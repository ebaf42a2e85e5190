// The whole tables, as a host keeps them between two steps and as a step works on them, with a reader of each table and writers.
// Past a table's end a read gives the blank, and a write changes nothing: std's `get`, and `put`. What is named here and in `mailbox` and
// `pool` is one line each over these two, and stays for the meaning that it has in specs/, which the theorems cite.
ghost use Rattle.std.specs.Prelude.{◌≡◌};
ghost use Rattle.library.specs.Causes.{caused};
ghost use Rattle.library.specs.Tables.{blank_mailbox, blank_pool, opened, closed, mailbox_in, pool_in, with_kernel, with_mailbox, with_pool};

use crate::causes::cause_of;
use crate::ring::Positions;
use crate::sizes::Sizes;
use kernel::records::{Kernel, Records, begin, end};
use kernel::tables::put;

// A mailbox: where it reads and writes, its reset state (any value but 0), and its messages' bits.
#[repr(C)]
#[derive(Clone, Copy, Default)]
pub struct Mailbox {
    pub positions: Positions,
    // Stays a number: C keeps this struct, and any value but 0 that it stores there is the reset state.
    pub reset: u16,
    pub messages: [u32; 16],
}

// A pool: its free objects, the last one on top, and a mark for each object. Its counter is the kernel part's.
// (The list has its length beside it as C has it.)
#[repr(C)]
#[derive(Clone, Copy, Default)]
pub struct Pool {
    pub length: u16,
    pub list: [u8; 32],
    pub marks: [u8; 32],
}

#[repr(C)]
#[derive(Clone, Copy)]
pub struct Tables {
    pub kernel: Records,
    pub mailboxes: [Mailbox; 4],
    pub pools: [Pool; 4],
    pub sizes: Sizes,
}

// The tables at work on one step.
#[derive(Clone, Copy)]
pub struct Plant {
    pub kernel: Kernel,
    pub mailboxes: [Mailbox; 4],
    pub pools: [Pool; 4],
    pub sizes: Sizes,
}

// A step of this kind begins.
pub fn open(t: Tables, kind: u16) -> Plant
    ensures { result ≡ caused (opened t) kind }
{
    let Tables {
        kernel,
        mailboxes,
        pools,
        sizes,
    } = t;
    Plant {
        kernel: begin(kernel, cause_of(kind).number()),
        mailboxes,
        pools,
        sizes,
    }
}

// The tables that a step leaves.
pub fn close(p: Plant) -> Tables
    ensures { result ≡ closed p }
{
    let Plant {
        kernel,
        mailboxes,
        pools,
        sizes,
    } = p;
    Tables {
        kernel: end(kernel),
        mailboxes,
        pools,
        sizes,
    }
}

pub fn blank_mailbox() -> Mailbox
    ensures { result ≡ blank_mailbox }
{
    Mailbox::default()
}

// A pool of which every object is absent.
pub fn blank_pool() -> Pool
    ensures { result ≡ blank_pool }
{
    Pool::default()
}

pub fn set_kernel(p: Plant, k: Kernel) -> Plant
    ensures { result ≡ with_kernel p k }
{
    Plant { kernel: k, ..p }
}

pub fn mailbox_at(mailboxes: [Mailbox; 4], i: u16) -> Mailbox
    ensures { result ≡ mailbox_in mailboxes i }
{
    mailboxes
        .get(i as usize)
        .copied()
        .unwrap_or_else(blank_mailbox)
}

pub fn set_mailbox(p: Plant, i: u16, b: Mailbox) -> Plant
    ensures { result ≡ with_mailbox p i b }
{
    let mut r = p;
    put(&mut r.mailboxes, i as usize, b);
    r
}

pub fn pool_at(pools: [Pool; 4], i: u16) -> Pool
    ensures { result ≡ pool_in pools i }
{
    pools.get(i as usize).copied().unwrap_or_else(blank_pool)
}

pub fn set_pool(p: Plant, i: u16, x: Pool) -> Plant
    ensures { result ≡ with_pool p i x }
{
    let mut r = p;
    put(&mut r.pools, i as usize, x);
    r
}
