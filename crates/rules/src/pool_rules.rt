// Whether each pool's free list agrees with its marks, its counter and the objects promised to woken threads.
// One pass over a list counts the occurrences of all objects.
ghost use Rattle.std.specs.Prelude.{ℕ, ◌<◌, ◌≡◌, get_or};
ghost use Rattle.rules.specs.PoolRules.{
  is_promised,
  pool_of,
  occurrences,
  object_fits,
  entries_fit,
  objects_fit,
  larger,
  length_fits,
  pool_fits,
  bad_stock,
};
ghost use Rattle.rules.specs.Options.{told_row};

use crate::limits::used_of;
use crate::searching::{all_fit, first_failing};
use kernel::kinds::Kind;
use kernel::numbers::OK;
use kernel::places::pool_place;
use kernel::records::Thread;
use kernel::states::State;
use kernel::words::count_in;
use library::numbers::{FREE_MARK, OUT};
use library::signs::less;
use library::sizes::Sizes;
use library::tables::Pool;

// Whether a thread is ready with an unfinished alloc that was woken with 0: an object is promised to it.
fn is_promised(t: Thread) -> bool
    ensures { result ≡ is_promised t }
{
    let call = t.call;
    t.state == State::Ready as u16 && (call.kind == Kind::Alloc as u16 && t.message == OK)
}

// The pool that has promised a thread an object; past all pools where none has.
pub fn pool_of(t: Thread) -> u16
    ensures { result ≡ pool_of t }
{
    let call = t.call;
    if is_promised(t) { call.object } else { 4 }
}

// How often each object is listed.
#[tactic(auto, unfolding(crate::specs::PoolRules::occurrences))]
fn count_listed(x: Pool) -> [u16; 32]
    ensures { (o : ℕ) → o < 32 → get_or result o 0 ≡ occurrences x o }
{
    let mut counts = [0; 32];
    for j in 0..used_of(32, x.length) {
        let at = x.list[j as usize] as usize;
        if at < 32 {
            counts[at] += 1;
        }
    }
    counts
}

// Whether only objects are listed.
#[tactic(auto, unfolding(crate::specs::PoolRules::entries_fit))]
fn entries_fit(x: Pool) -> bool
    ensures { result ≡ entries_fit x }
{
    all_fit(used_of(32, x.length), |j| x.list[j as usize] < 32)
}

// Whether an object with this mark may be listed n times: a free one once, any other not at all.
fn object_fits(mark: u8, n: u16) -> bool
    ensures { result ≡ object_fits mark n }
{
    if mark == FREE_MARK {
        n == 1
    } else {
        mark <= OUT && n == 0
    }
}

// Whether each object is marked, and is listed as its mark says.
#[tactic(auto, unfolding(crate::specs::PoolRules::objects_fit))]
fn objects_fit(x: Pool) -> bool
    ensures { result ≡ objects_fit x }
{
    let counts = count_listed(x);
    // a loop and not `all_fit`: a search that leaves at the first object made a step with all objects a tenth slower
    let mut fits = true;
    for o in 0..32usize {
        fits &= object_fits(x.marks[o], counts[o]);
    }
    fits
}

// The larger of a counter and 0.
fn larger(c: i32) -> i32
    ensures { result ≡ larger c }
{
    if c < 0 { 0 } else { c }
}

// Whether a list is as long as its pool's counter and promises say.
fn length_fits(length: u16, c: i32, promised: u16) -> bool
    ensures { result ≡ length_fits length c promised }
{
    larger(c) == less(length, promised)
}

// Whether a pool with this counter and so many promises hangs together.
#[tactic(auto, unfolding(crate::specs::PoolRules::pool_fits))]
fn pool_fits(x: Pool, c: i32, promised: u16) -> bool
    ensures { result ≡ pool_fits x c promised }
{
    x.length <= 32 && (length_fits(x.length, c, promised) && (entries_fit(x) && objects_fit(x)))
}

// The first pool that does not hang together; as many objects are promised as its word has ones.
pub fn first_bad_pool(
    pools: [Pool; 4],
    counters: [i32; 36],
    promised: [u16; 4],
    z: Sizes,
) -> Option<u16>
    ensures { result ≡ told_row (bad_stock pools counters promised z) }
{
    first_failing(used_of(4, z.pools), |q| {
        let c = counters[pool_place(q) as usize];
        pool_fits(pools[q as usize], c, count_in(promised[q as usize]) as u16)
    })
}
