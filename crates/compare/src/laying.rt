// What is kept as the bytes in which it lies: each number at its place, one behind the other without a gap, the lowest byte first.
ghost use Rattle.std.specs.Prelude.{◌≡◌};
ghost use Rattle.compare.specs.Cells.{clock_at};
ghost use Rattle.compare.specs.Bytes.{number_at, number_put};
ghost use Rattle.compare.specs.Laid.{
  thread_width,
  box_width,
  pool_width,
  width_of,
  blank_kept,
  places_read,
  kept_of,
  places_put,
  tables_put,
  clock_put,
};

use crate::bytes::{get_number, put_number};
use crate::cells::{
    CLOCK_AT, COUNTERS_AT, Kept, MAILBOXES_AT, POOLS_AT, REFERENCES_AT, SIZES_AT, STEPS_AT,
    WORDS_AT, cell_at,
};
use crate::storing::with_cell;
use library::fresh::{clock_of, tables_of};
use library::sizes::no_sizes;

// ---- how many bytes the number at a place has

fn thread_width(f: u16) -> u32
    ensures { result ≡ thread_width f }
{
    let widths: [u32; 14] = [2, 2, 4, 4, 4, 4, 2, 2, 4, 4, 4, 4, 4, 4];
    widths.get(f as usize).copied().unwrap_or(4)
}

fn box_width(f: u16) -> u32
    ensures { result ≡ box_width f }
{
    if f < 4 { 2 } else { 4 }
}

fn pool_width(f: u16) -> u32
    ensures { result ≡ pool_width f }
{
    if f == 0 { 2 } else { 1 }
}

#[tactic(auto, unfolding(crate::specs::Laid::width_of))]
pub(crate) fn width_of(i: u16) -> u32
    ensures { result ≡ width_of i }
{
    if i < COUNTERS_AT {
        thread_width(i % 14)
    } else if i < REFERENCES_AT {
        4
    } else if i < WORDS_AT {
        1
    } else if i < STEPS_AT {
        2
    } else if i < MAILBOXES_AT {
        4
    } else if i < POOLS_AT {
        box_width((i - MAILBOXES_AT) % 20)
    } else if i < SIZES_AT {
        pool_width((i - POOLS_AT) % 65)
    } else if i < CLOCK_AT {
        2
    } else {
        4
    }
}

// ---- read

// Nothing is kept: the tables of no sizes, and a clock of no frequency.
#[tactic(auto, unfolding(crate::specs::Laid::blank_kept))]
pub fn blank_kept() -> Kept
    ensures { result ≡ blank_kept }
{
    let tables = tables_of(no_sizes());
    let clock = clock_of(0);
    Kept { tables, clock }
}

#[tactic(auto, unfolding(crate::specs::Laid::places_read))]
fn read_tables(s: &[u8]) -> Kept
    ensures { result ≡ places_read s.now clock_at }
{
    let mut a = blank_kept();
    let mut at: u32 = 0;
    for i in 0..CLOCK_AT {
        let w = width_of(i);
        a = with_cell(a, i, get_number(s, at, w));
        at += w;
    }
    a
}

// What the bytes of tables and of a clock say; bytes that are missing read as 0.
#[tactic(auto, unfolding(crate::specs::Laid::kept_of))]
pub fn kept_of(tables: &[u8], clock: &[u8]) -> Kept
    ensures { result ≡ kept_of tables.now clock.now }
{
    let mut a = read_tables(tables);
    a = with_cell(a, CLOCK_AT, get_number(clock, 0, 4));
    a = with_cell(a, CLOCK_AT + 1, get_number(clock, 4, 4));
    a
}

// ---- written

// The numbers of the first n places, from a place of the slice on.
#[tactic(auto, unfolding(crate::specs::Laid::places_put))]
pub(crate) fn put_places(a: Kept, n: u16, s: &mut [u8], from: u16)
    ensures { s.new ≡ places_put a n s.old from }
{
    let mut at = from as u32;
    for i in 0..n {
        let w = width_of(i);
        put_number(s, at, w, cell_at(a, i));
        at += w;
    }
}

#[tactic(auto, unfolding(crate::specs::Laid::clock_put))]
fn put_clock(a: Kept, s: &mut [u8])
    ensures { s.new ≡ clock_put a s.old }
{
    put_number(s, 0, 4, cell_at(a, CLOCK_AT));
    put_number(s, 4, 4, cell_at(a, CLOCK_AT + 1));
}

// The bytes of tables and of a clock; a number that passes the end of its slice is left out.
#[tactic(auto, unfolding(crate::specs::Laid::clock_put))]
pub fn put_kept(a: Kept, tables: &mut [u8], clock: &mut [u8])
    ensures tables { tables.new ≡ tables_put a tables.old }
    ensures clock { clock.new ≡ clock_put a clock.old }
{
    put_places(a, CLOCK_AT, tables, 0);
    put_clock(a, clock);
}
