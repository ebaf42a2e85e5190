// A reader and a writer for all tables, and those of each table, which a reader is handed alone. Past a table's end a read gives the blank,
// and a write changes nothing; so no caller ever meets a length. A step indexes a table elsewhere only in loops over rows and in the moves.
ghost use Rattle.std.specs.Prelude.{◌≡◌, get_or, set};
ghost use Rattle.kernel.specs.Tables.{used_rows, row_in, counter_in, holder_in, with_thread, with_counter};

use crate::numbers::{NOBODY, THREADS};
use crate::records::{Kernel, Thread, blank_thread};

// What a table holds at an index, or the blank past its end.
pub fn at<T: Copy>(rows: &[T], i: usize, blank: T) -> T
    ensures { result ≡ get_or rows.now i blank }
{
    rows.get(i).copied().unwrap_or(blank)
}

// A table with a row stored at an index; nothing changes past its end.
pub fn put<T: Copy>(rows: &mut [T], i: usize, row: T)
    ensures { rows.new ≡ set rows.old i row }
{
    if i < rows.len() {
        rows[i] = row;
    }
}

// How many of n threads have a row.
pub fn used_rows(n: u16) -> u8
    ensures { result ≡ used_rows n }
{
    n.min(THREADS as u16) as u8
}

pub fn thread_at(threads: [Thread; 16], i: u8) -> Thread
    ensures { result ≡ row_in threads i }
{
    at(&threads, i as usize, blank_thread())
}

pub fn set_thread(k: Kernel, i: u8, t: Thread) -> Kernel
    ensures { result ≡ with_thread k i t }
{
    let mut r = k;
    put(&mut r.threads, i as usize, t);
    r
}

pub fn counter_at(counters: [i32; 36], place: u16) -> i32
    ensures { result ≡ counter_in counters place }
{
    at(&counters, place as usize, 0)
}

pub fn set_counter(k: Kernel, place: u16, c: i32) -> Kernel
    ensures { result ≡ with_counter k place c }
{
    let mut r = k;
    put(&mut r.counters, place as usize, c);
    r
}

// Whom a reference holds.
pub fn holder_at(references: [u8; 8], reference: u16) -> u8
    ensures { result ≡ holder_in references reference }
{
    at(&references, reference as usize, NOBODY)
}
