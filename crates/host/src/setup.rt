// Fresh tables and a fresh clock where the host keeps them.
ghost use Rattle.std.specs.Prelude.{◌≡◌};
ghost use Rattle.host.specs.Setup.{prepared, tables_set, clock_set};

use kernel::clock::Clock;
use library::fresh::make;
use library::sizes::Sizes;
use library::tables::Tables;

// Sets the tables and the clock up fresh, with code 0; or refuses with 14 or 6, and writes nothing.
#[unsafe(no_mangle)]
pub extern "C" fn nil_fresh(
    tables: &mut Tables,
    clock: &mut Clock,
    sizes: &Sizes,
    frequency: u32,
) -> u8
    ensures { (result ≡ (prepared sizes.now frequency).code)
        × (tables.new ≡ tables_set sizes.now frequency tables.old)
        × (clock.new ≡ clock_set sizes.now frequency clock.old) }
{
    match make(*sizes, Some(frequency)) {
        Ok(fresh) => {
            *tables = fresh.tables;
            *clock = fresh.clock;
            0
        }
        Err(why) => why as u8,
    }
}
