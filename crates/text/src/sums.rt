// The rows of an account: of each mailbox, of each pool, and of each object that is out, by pool and object.
ghost use Rattle.std.specs.Prelude.{◌≡◌};
ghost use Rattle.text.specs.Parts.{part_number};
ghost use Rattle.text.specs.Sums.{marked_count, object_row, mailbox_sums, pool_sums, sum_row};

use crate::items::{Item, Line, at_or, no_row, numbered};
use crate::parts::Part;
use accounts::account::Account;
use library::numbers::{FREE_MARK, OUT};
use library::pool::mark_at;
use library::tables::{Pool, Tables, mailbox_at, pool_at};

// How many of a pool's objects have a mark.
fn count_marks(p: Pool, mark: u8) -> u32
    ensures { result ≡ marked_count p mark }
{
    let mut n: u32 = 0;
    for i in 0..32 {
        if mark_at(p, i) == mark {
            n += 1;
        }
    }
    n
}

// Object i of all pools, 32 a pool; no row if it is not out.
#[tactic(auto, unfolding(crate::specs::Sums::object_row))]
fn object_row(a: Account, t: Tables, i: u8) -> Line
    ensures { result ≡ object_row a t i }
{
    let pools = t.pools;
    let p = pool_at(pools, i as u16 / 32);
    let takers = a.takers;
    let steps = a.steps;
    if mark_at(p, i % 32) == OUT {
        numbered(&[
            Item::Plain(i as u32 / 32),
            Item::Number(i as u32 % 32),
            Item::Number(at_or(&takers, i as usize, 0) as u32),
            Item::Number(at_or(&steps, i as usize, 0)),
        ])
    } else {
        no_row()
    }
}

// A mailbox's row; one function for it and a pool's would be no plainer, for their columns come from different tables.
#[tactic(auto, unfolding(crate::specs::Sums::mailbox_sums))]
fn mailbox_sums(a: Account, t: Tables, i: u8) -> Line
    ensures { result ≡ mailbox_sums a t i }
{
    let boxes = t.mailboxes;
    let posted = a.posted;
    let fetched = a.fetched;
    let lost = a.lost;
    let b = mailbox_at(boxes, i as u16);
    let q = b.positions;
    numbered(&[
        Item::Plain(i as u32),
        Item::Number(at_or(&posted, i as usize, 0)),
        Item::Number(at_or(&fetched, i as usize, 0)),
        Item::Number(at_or(&lost, i as usize, 0)),
        Item::Number(q.count as u32),
    ])
}

#[tactic(auto, unfolding(crate::specs::Sums::pool_sums))]
fn pool_sums(a: Account, t: Tables, i: u8) -> Line
    ensures { result ≡ pool_sums a t i }
{
    let pools = t.pools;
    let added = a.added;
    let p = pool_at(pools, i as u16);
    numbered(&[
        Item::Plain(i as u32),
        Item::Number(at_or(&added, i as usize, 0)),
        Item::Number(count_marks(p, FREE_MARK)),
        Item::Number(count_marks(p, OUT)),
    ])
}

// Row i of an account.
#[tactic(auto, unfolding(crate::specs::Sums::sum_row))]
pub(crate) fn sum_row(a: Account, t: Tables, part: Part, i: u8) -> Line
    ensures { result ≡ sum_row a t (part_number part) i }
{
    match part {
        Part::MailboxSums => mailbox_sums(a, t, i),
        Part::PoolSums => pool_sums(a, t, i),
        _ => object_row(a, t, i),
    }
}
