// Which rule of "tables that hang together" the tables of a host break first. docs/RULES.md has the rules by their numbers.
ghost use Rattle.std.specs.Prelude.{◌≡◌};
ghost use Rattle.host.specs.Broken.{broken_number};

use kernel::clock::Clock;
use library::tables::Tables;
use rules::finding::find_broken;

// The rule's number and the row, as one number: 256 times the rule, plus the row. 0 where no rule is broken.
fn number_broken(tables: Tables, clock: Clock) -> u32
    ensures { result ≡ broken_number tables clock }
{
    match find_broken(tables, clock) {
        Some(found) => found.rule as u32 * 256 + found.row as u32,
        None => 0,
    }
}

// Says which rule is broken first, and in which row.
#[unsafe(no_mangle)]
pub extern "C" fn nil_broken(tables: &Tables, clock: &Clock) -> u32
    ensures { result ≡ broken_number tables.now clock.now }
{
    let t = *tables;
    let c = *clock;
    number_broken(t, c)
}
