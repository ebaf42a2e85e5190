// Which rule of "tables that hang together" is broken first, and where. The rules have the numbers of docs/RULES.md, in the order
// of document 01's section, and then document 02's.
ghost use Rattle.std.specs.Prelude.{◌≡◌, ℕ, Bool};
ghost use Rattle.kernel.specs.declared.records.Thread.{Thread};
ghost use Rattle.kernel.specs.Tables.{used_rows, row_in};
ghost use Rattle.library.specs.Tables.{opened};
ghost use Rattle.rules.specs.Finding.{wholly, bad_running, bad_cause, broken};
ghost use Rattle.rules.specs.Limits.{first_bad};
ghost use Rattle.rules.specs.Options.{told_row, told_broken, broken_by, broken_record};

use crate::mailbox_rules::first_bad_mailbox;
use crate::place_rules::first_bad_place;
use crate::pool_rules::first_bad_pool;
use crate::reference_rules::first_bad_reference;
use crate::row_rules::{awaited_fit, call_fits, cause_fits, none_pending, ticks_fit, wait_fits};
use crate::searching::first_failing;
use crate::walking::walk;
use crate::word_rules::first_bad_word;
use kernel::clock::Clock;
use kernel::records::Thread;
use kernel::tables::used_rows;
use kernel::units::frequency_fits;
use kernel::waiters::is_free;
use kernel::words::first_in;
use library::sizes::{Sizes, sizes_fit};
use library::tables::Tables;

// A rule that is broken, and the first row that breaks it.
#[derive(Clone, Copy)]
pub struct Broken {
    pub rule: u16,
    pub row: u16,
}

// Of a rule about the tables as a whole: row 0 where it is broken.
fn bad_whole(fits: bool) -> Option<u16>
    ensures { result ≡ told_row (wholly fits) }
{
    if fits { None } else { Some(0) }
}

// The rule of this number, if a row breaks it.
fn broken_by(rule: u16, row: Option<u16>) -> Option<Broken>
    ensures { result ≡ broken_by rule row }
{
    row.map(|row| Broken { rule, row })
}

// The first of n threads whose record does not fit.
fn first_bad_row<F: Fn(Thread) -> bool>(threads: [Thread; 16], n: u16, fits: F) -> Option<u16>
    requires { F.IsAlwaysCallable fits }
    ensures { (f : Thread → Bool) → ((t : Thread) → (b : Bool) → F.post fits t b → b ≡ f t) → result ≡ told_row (first_bad (λ i. f (row_in threads i)) (used_rows n)) }
{
    first_failing(used_rows(n) as u16, |i| fits(threads[i as usize]))
}

// The running thread where it has an unfinished call. It is the first of those that the walk found ready: here the tables' own word may be
// wrong.
fn bad_running(threads: [Thread; 16], ready: u16) -> Option<u16>
    ensures { result ≡ told_row (bad_running threads ready) }
{
    let i = first_in(ready);
    if is_free(threads, i) {
        None
    } else {
        Some(i as u16)
    }
}

// The first of the rules 7 to 11 that a record breaks. They are looked at only where the walk has found that not all records fit.
fn broken_record(fit: bool, threads: [Thread; 16], z: Sizes) -> Option<Broken>
    ensures { result ≡ broken_record fit threads z }
{
    if fit {
        return None;
    }
    broken_by(7, first_bad_row(threads, z.threads, ticks_fit))
        .or(broken_by(8, first_bad_row(threads, z.threads, |t| call_fits(t, z))))
        .or(broken_by(9, first_bad_row(threads, z.threads, wait_fits)))
        .or(broken_by(10, first_bad_row(threads, z.threads, awaited_fit)))
        .or(broken_by(11, first_bad_row(threads, z.threads, none_pending)))
}

// The first thread that breaks rule 15, which is looked for only where not all records fit.
fn bad_cause(fit: bool, threads: [Thread; 16], z: Sizes) -> Option<u16>
    ensures { result ≡ told_row (bad_cause fit threads z) }
{
    if fit {
        None
    } else {
        first_bad_row(threads, z.threads, cause_fits)
    }
}

// Looks for the first rule that is broken. All are tested, whatever was found: each reads within its table.
#[tactic(auto, unfolding(crate::specs::Finding::broken))]
pub fn find_broken(t: Tables, clock: Clock) -> Option<Broken>
    ensures { result ≡ told_broken (broken (opened t) clock) }
{
    let z = t.sizes;
    let threads = t.kernel.threads;
    let counters = t.kernel.counters;
    let words = t.kernel.words;
    let w = walk(threads, z);
    broken_by(1, bad_whole(sizes_fit(z)))
        .or(broken_by(2, bad_whole(frequency_fits(clock.frequency))))
        .or(broken_by(3, first_bad_place(counters, w.waiting, z)))
        .or(broken_by(4, first_bad_reference(t.kernel.references, w.suspended, z)))
        .or(broken_by(5, first_bad_mailbox(t.mailboxes, z)))
        .or(broken_by(6, first_bad_pool(t.pools, counters, w.promised, z)))
        .or(broken_record(w.rows, threads, z))
        .or(broken_by(12, bad_running(threads, w.ready)))
        .or(broken_by(13, bad_whole(words.ready == w.ready)))
        .or(broken_by(14, first_bad_word(words.waiting, w.waiting, z)))
        .or(broken_by(15, bad_cause(w.rows, threads, z)))
}
