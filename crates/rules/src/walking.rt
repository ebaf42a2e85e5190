// One walk over the threads' records, for all rules that read them. What it finds of the threads it gives as words, bit i for thread i;
// as many threads are counted as a word has ones.
ghost use Rattle.std.specs.Prelude.{◌≡◌};
ghost use Rattle.rules.specs.Walking.{walked};

use crate::place_rules::queue_of;
use crate::pool_rules::pool_of;
use crate::reference_rules::reference_of;
use crate::row_rules::row_fits;
use kernel::records::Thread;
use kernel::tables::used_rows;
use kernel::waiters::is_ready;
use kernel::words::bit_value;
use library::sizes::Sizes;

// Whether each record hangs together by itself; who is ready, who waits at each place, who is suspended on each reference, and to whom
// each pool has promised an object.
#[derive(Clone, Copy)]
pub struct Walked {
    pub rows: bool,
    pub ready: u16,
    pub waiting: [u16; 36],
    pub suspended: [u16; 8],
    pub promised: [u16; 4],
}

pub fn walk(threads: [Thread; 16], z: Sizes) -> Walked
    ensures { result ≡ walked threads z }
{
    let mut rows = true;
    let mut ready: u16 = 0;
    let mut waiting = [0; 36];
    let mut suspended = [0; 8];
    let mut promised = [0; 4];
    for i in 0..used_rows(z.threads) {
        let t = threads[i as usize];
        let value = bit_value(i);
        rows &= row_fits(t, z);
        if is_ready(t) {
            ready += value;
        }
        let p = queue_of(t) as usize;
        if p < 36 {
            waiting[p] += value;
        }
        let r = reference_of(t) as usize;
        if r < 8 {
            suspended[r] += value;
        }
        let q = pool_of(t) as usize;
        if q < 4 {
            promised[q] += value;
        }
    }
    Walked {
        rows,
        ready,
        waiting,
        suspended,
        promised,
    }
}
