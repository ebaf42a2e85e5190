// The system tick over all threads: chSysTimerHandlerI. Rows are read and stored where they lie,
// and whole tables change hands only where a thread is made ready.
ghost use Rattle.std.specs.Prelude.{◌≡◌};
ghost use Rattle.kernel.specs.Ticking.{counted_off, ticked};

use crate::moves::wake;
use crate::numbers::TIMED_OUT;
use crate::records::{Kernel, Thread};
use crate::tables::used_rows;

// The row with one tick less, if it has any left.
fn count_off(t: Thread) -> Thread
    ensures { result ≡ counted_off t }
{
    Thread {
        remaining: t.remaining.saturating_sub(1),
        ..t
    }
}

// One tick for n threads, in index order: whose last tick it is, is made ready with -1; the others have one less.
#[tactic(auto, unfolding(crate::specs::Ticking::ticked))]
pub fn tick(k: Kernel, n: u16) -> Kernel
    ensures { result ≡ ticked k n }
{
    let end = used_rows(n);
    let mut r = k;
    for i in 0..end {
        let t = r.threads[i as usize];
        if t.remaining == 1 {
            r = wake(r, i, TIMED_OUT);
        } else {
            r.threads[i as usize] = count_off(t);
        }
    }
    r
}
