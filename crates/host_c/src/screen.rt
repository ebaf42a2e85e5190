// Who is ready and who waits. Each function hands on what it was lent to the one of its name in crate host.
ghost use Rattle.std.specs.Prelude.{◌≡◌};
ghost use Rattle.host.specs.Screen.{ready_count, ready_first, waiters_at};

use library::tables::Tables;

// How many threads are ready.
#[unsafe(no_mangle)]
pub extern "C" fn nil_ready_count(tables: &Tables) -> u32
    ensures { result ≡ ready_count tables.now }
{
    host::screen::nil_ready_count(tables)
}

// The first ready thread, the one that runs; 255 where the machine idles.
#[unsafe(no_mangle)]
pub extern "C" fn nil_first_ready(tables: &Tables) -> u32
    ensures { result ≡ ready_first tables.now }
{
    host::screen::nil_first_ready(tables)
}

// The threads that wait at a place, bit i for thread i; none past all places.
#[unsafe(no_mangle)]
pub extern "C" fn nil_waiting(tables: &Tables, place: u32) -> u16
    ensures { result ≡ waiters_at tables.now place }
{
    host::screen::nil_waiting(tables, place)
}
