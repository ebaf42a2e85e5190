// Which rule the tables break first. Each function hands on what it was lent to the one of its name in crate host.
ghost use Rattle.std.specs.Prelude.{◌≡◌};
ghost use Rattle.host.specs.Broken.{broken_number};

use kernel::clock::Clock;
use library::tables::Tables;

// Says which rule is broken first, and in which row.
#[unsafe(no_mangle)]
pub extern "C" fn nil_broken(tables: &Tables, clock: &Clock) -> u32
    ensures { result ≡ broken_number tables.now clock.now }
{
    host::broken::nil_broken(tables, clock)
}
