// An account, and what one finished call changes in it. Sums wrap; an object that is not there changes nothing.
ghost use Rattle.std.specs.Prelude.{◌≡◌, true};
ghost use Rattle.accounts.specs.Account.{fresh_account, is_post, object_place, raised_if, entered};

use kernel::kinds::Kind;
use kernel::tables::put;

// For each mailbox messages posted, fetched and lost, for each pool objects added; and for each object of each pool, at 32 times the
// pool's number plus its own, who was handed it last, and in which step.
// The last two are arrays apart and not one of pairs, as Paper's statements of what is printed read them.
#[derive(Clone, Copy)]
pub struct Account {
    pub posted: [u32; 4],
    pub fetched: [u32; 4],
    pub lost: [u32; 4],
    pub added: [u32; 4],
    pub takers: [u16; 128],
    pub steps: [u32; 128],
}

// A call that finished with message 0: who called, NOBODY for an interrupt; its kind and object; and its value,
// which is its datum for a fetch and an alloc, for a reset how many messages there were, else its operand.
#[derive(Clone, Copy)]
pub struct Entry {
    pub who: u16,
    pub kind: u16,
    pub object: u16,
    pub value: u32,
}

// Nothing has happened yet.
pub fn fresh_account() -> Account
    ensures { result ≡ fresh_account }
{
    Account {
        posted: [0; 4],
        fetched: [0; 4],
        lost: [0; 4],
        added: [0; 4],
        takers: [0; 128],
        steps: [0; 128],
    }
}

fn is_post(kind: u16) -> bool
    ensures { result ≡ is_post kind }
{
    kind == Kind::Post as u16 || kind == Kind::PostAhead as u16
}

// Where an object of a pool stands; past the table for none.
fn object_place(pool: u16, object: u32) -> u32
    ensures { result ≡ object_place pool object }
{
    if object < 32 {
        pool as u32 * 32 + object
    } else {
        128
    }
}

// Stays a test of the index: with `get_mut` the line is no shorter, `if let Some(sum) = sums.get_mut(at) { *sum = .. }`.
// Adds n to the sum at i; past the sums nothing changes.
fn raise_at(sums: &mut [u32; 4], i: u16, n: u32)
    ensures { sums.new ≡ raised_if true sums.old i n }
{
    let at = i as usize;
    if at < 4 {
        sums[at] = sums[at].wrapping_add(n);
    }
}

// The account with an entry of a step of this number.
#[tactic(auto, unfolding(crate::specs::Account::entered))]
pub fn enter(a: Account, number: u32, e: Entry) -> Account
    ensures { result ≡ entered a number e }
{
    let mut r = a;
    if is_post(e.kind) {
        raise_at(&mut r.posted, e.object, 1);
    } else if e.kind == Kind::Fetch as u16 {
        raise_at(&mut r.fetched, e.object, 1);
    } else if e.kind == Kind::MailboxReset as u16 {
        raise_at(&mut r.lost, e.object, e.value);
    } else if e.kind == Kind::Add as u16 {
        raise_at(&mut r.added, e.object, 1);
    } else if e.kind == Kind::Alloc as u16 {
        let place = object_place(e.object, e.value) as usize;
        put(&mut r.takers, place, e.who);
        put(&mut r.steps, place, number);
    }
    r
}
