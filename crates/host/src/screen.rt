// What an operators' screen asks: who is ready, and who waits at a place. The words alone are read, and no record.
ghost use Rattle.std.specs.Prelude.{◌≡◌};
ghost use Rattle.host.specs.Screen.{ready_count, ready_first, waiters_at};

use kernel::words::{count_in, first_in, waiting_at};
use library::tables::Tables;

// Three functions that differ in the reader of the words that they call: a closure for it is no plainer, since each is those few lines.
// How many threads are ready, by value.
fn count_ready(t: Tables) -> u32
    ensures { result ≡ ready_count t }
{
    let kernel = t.kernel;
    let words = kernel.words;
    count_in(words.ready) as u32
}

// The first of them, or 255, by value.
fn find_ready(t: Tables) -> u32
    ensures { result ≡ ready_first t }
{
    let kernel = t.kernel;
    let words = kernel.words;
    first_in(words.ready) as u32
}

// The threads that wait at a place, by value.
fn find_waiting(t: Tables, place: u32) -> u16
    ensures { result ≡ waiters_at t place }
{
    let kernel = t.kernel;
    let words = kernel.words;
    waiting_at(words, place)
}

// How many threads are ready.
#[unsafe(no_mangle)]
pub extern "C" fn nil_ready_count(tables: &Tables) -> u32
    ensures { result ≡ ready_count tables.now }
{
    let t = *tables;
    count_ready(t)
}

// The first ready thread, the one that runs; 255 where the machine idles.
#[unsafe(no_mangle)]
pub extern "C" fn nil_first_ready(tables: &Tables) -> u32
    ensures { result ≡ ready_first tables.now }
{
    let t = *tables;
    find_ready(t)
}

// The threads that wait at a place, bit i for thread i; none past all places.
#[unsafe(no_mangle)]
pub extern "C" fn nil_waiting(tables: &Tables, place: u32) -> u16
    ensures { result ≡ waiters_at tables.now place }
{
    let t = *tables;
    find_waiting(t, place)
}
