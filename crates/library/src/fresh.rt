// Fresh tables: all threads ready, as the ready word says; references and mailboxes empty, pool objects absent, all else 0.
ghost use Rattle.std.specs.Prelude.{◌≡◌};
ghost use Rattle.library.specs.Fresh.{fresh_tables, fresh_clock, none_made, told_made, made};

use crate::sizes::{Sizes, no_sizes, sizes_fit};
use crate::tables::{Tables, blank_mailbox, blank_pool};
use kernel::clock::Clock;
use kernel::records::fresh;
use kernel::refusals::Refusal;
use kernel::time::SystemTime;
use kernel::units::{frequency_fits, frequency_of};
use kernel::words::fresh_words;

// Tables and their clock.
#[derive(Clone, Copy)]
pub struct Fresh {
    pub tables: Tables,
    pub clock: Clock,
}

pub fn tables_of(sizes: Sizes) -> Tables
    ensures { result ≡ fresh_tables sizes }
{
    Tables {
        kernel: fresh(fresh_words(sizes.threads)),
        mailboxes: [blank_mailbox(); 4],
        pools: [blank_pool(); 4],
        sizes,
    }
}

pub fn clock_of(frequency: u32) -> Clock
    ensures { result ≡ fresh_clock frequency }
{
    Clock {
        time: SystemTime(0),
        frequency,
    }
}

// What there is where nothing was made: the tables of no sizes, and a clock of no frequency.
pub fn none_made() -> Fresh
    ensures { result ≡ none_made }
{
    Fresh {
        tables: tables_of(no_sizes()),
        clock: clock_of(0),
    }
}

// Fresh tables of the sizes, or a refusal: for a size out of its limits, then for a frequency out of its range.
#[tactic(auto, unfolding(crate::specs::Fresh::made))]
pub fn make(sizes: Sizes, rate: Option<u32>) -> Result<Fresh, Refusal>
    ensures { told_made result ≡ made sizes rate }
{
    let frequency = frequency_of(rate);
    if !sizes_fit(sizes) {
        Err(Refusal::Size)
    } else if !frequency_fits(frequency) {
        Err(Refusal::Value)
    } else {
        Ok(Fresh {
            tables: tables_of(sizes),
            clock: clock_of(frequency),
        })
    }
}
