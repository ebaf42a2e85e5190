// What each view prints of a trace: which parts stand before all records, behind each step's record, and at the end; and one loop for all.
ghost use Rattle.std.specs.Prelude.{◌≡◌};
ghost use Rattle.trace.specs.Decoding.{told_found, told_sizes, next_read};
ghost use Rattle.buffers.specs.Put.{Puts};
ghost use Rattle.text.specs.Parts.{part_number};
ghost use Rattle.text.specs.Views.{view_parts, waking_row, step_line, step_row, row_of, rows_in, head_text, part_text, parts_text, stop_text, fresh_seen, report_of, seen_after, seen_behind, shown_parts, record_of, Listed};

use crate::items::{Item, Line, brief, no_row, numbered, put_row};
use crate::parts::{Part, part_of};
use crate::sums::sum_row;
use crate::tables::{least, table_row, word_row};
use crate::why::waited_at;
use accounts::account::{Account, fresh_account};
use accounts::accounting::{Report, account_step, call_by};
use buffers::putting::Sheet;
use kernel::clock::Clock;
use kernel::records::Thread;
use kernel::tables::thread_at;
use kernel::words::has_bit;
use library::calls::Step;
use library::fresh::{Fresh, make, none_made};
use library::sizes::Sizes;
use library::tables::Tables;
use steps::stepping::{Outcome, step};
use trace::cursor::read_at;
use trace::decoding::{BadRecord, Record};

// What is printed: a line for each step, these with all tables, a line for each waking, or the account at the end; and without a heading a
// line for each step that has its message and datum too.
#[derive(Clone, Copy)]
pub enum View {
    Lines,
    AllTables,
    Wakings,
    Sums,
    Answers,
}

// A view: from which part on and how many stand before all records, behind each step's, and at the end.
// Numbers, for a view shows parts in a row, from one on, and `view_parts` (specs/Views.antt) tells it so.
#[derive(Clone, Copy)]
pub struct Parts {
    pub head: u8,
    pub heads: u8,
    pub step: u8,
    pub steps: u8,
    pub end: u8,
    pub ends: u8,
}

// What is known behind a record: its number, the step, the threads that it found, its result, and the tables, the clock and the account
// after it.
#[derive(Clone, Copy)]
pub struct Seen {
    pub number: u32,
    pub step: Step,
    pub found: [Thread; 16],
    pub outcome: Outcome,
    pub tables: Tables,
    pub clock: Clock,
    pub account: Account,
}

// A trace under way: what is known behind the last record, and the place in the trace.
#[derive(Clone, Copy)]
pub struct Listing {
    pub seen: Seen,
    pub at: usize,
}

pub(crate) fn parts_of(view: View) -> Parts
    ensures { result ≡ view_parts view }
{
    match view {
        View::Lines => Parts {
            head: Part::ListHead as u8,
            heads: 1,
            step: Part::Step as u8,
            steps: 1,
            end: 0,
            ends: 0,
        },
        View::AllTables => Parts {
            head: Part::ListHead as u8,
            heads: 1,
            step: Part::Step as u8,
            steps: 15,
            end: 0,
            ends: 0,
        },
        View::Wakings => Parts {
            head: Part::WhyHead as u8,
            heads: 1,
            step: Part::Wakings as u8,
            steps: 1,
            end: 0,
            ends: 0,
        },
        View::Sums => Parts {
            head: 0,
            heads: 0,
            step: 0,
            steps: 0,
            end: Part::MailboxSums as u8,
            ends: 3,
        },
        View::Answers => Parts {
            head: 0,
            heads: 0,
            step: Part::Answered as u8,
            steps: 1,
            end: 0,
            ends: 0,
        },
    }
}

// The waking of thread i, if the step has woken it. It waited in the step's own call, if it is the caller, else in the one that its
// record had kept.
#[tactic(auto, unfolding(crate::specs::Views::waking_row))]
fn waking_row(x: Seen, i: u8) -> Line
    ensures { result ≡ waking_row x i }
{
    let found = x.found;
    let threads = x.tables.kernel.threads;
    let was = thread_at(found, i);
    let is = thread_at(threads, i);
    let outcome = x.outcome;
    if has_bit(outcome.woken, i) {
        numbered(&[
            Item::Plain(is.step),
            Item::Number(i as u32),
            Item::Cause(is.cause),
            waited_at(call_by(x.step, i, was.call)),
            Item::Signed(is.message),
        ])
    } else {
        no_row()
    }
}

// A step's line, with its message and datum or without them.
#[tactic(auto, unfolding(crate::specs::Views::step_line))]
fn step_line(number: u32, o: Outcome, message: Item, datum: Item) -> Line
    ensures { result ≡ step_line number o message datum }
{
    numbered(&[
        Item::Plain(number),
        Item::Number(o.code as u32),
        Item::Number(o.running as u32),
        Item::Number(o.woken as u32),
        Item::Number(o.finished as u32),
        message,
        datum,
    ])
}

// A row of a step: its line, its answer, the clock, the number of accepted steps, its line with its answer, or a waking.
#[tactic(auto, unfolding(crate::specs::Views::step_row))]
fn step_row(x: Seen, part: Part, i: u8) -> Line
    ensures { result ≡ step_row x (part_number part) i }
{
    let o = x.outcome;
    let k = x.tables.kernel;
    let clock = x.clock;
    let time = clock.time;
    let message = Item::Signed(o.message);
    let datum = Item::Number(o.datum);
    match part {
        Part::Step => step_line(x.number, o, Item::Nothing, Item::Nothing),
        Part::Answer => brief(*b"answer\0\0\0", message, datum),
        Part::Clock => brief(
            *b"clock\0\0\0\0",
            Item::Number(time.0),
            Item::Number(clock.frequency),
        ),
        Part::Steps => brief(*b"steps\0\0\0\0", Item::Number(k.steps), Item::Nothing),
        Part::Answered => step_line(x.number, o, message, datum),
        _ => waking_row(x, i),
    }
}

// Row i of a part.
#[tactic(auto, unfolding(crate::specs::Views::row_of))]
fn row_of(x: Seen, part: Part, i: u8) -> Line
    ensures { result ≡ row_of x (part_number part) i }
{
    let t = x.tables;
    let k = t.kernel;
    let words = k.words;
    let account = x.account;
    match part {
        Part::Step | Part::Answer | Part::Clock | Part::Steps | Part::Answered | Part::Wakings => {
            step_row(x, part, i)
        }
        Part::Threads
        | Part::Semaphores
        | Part::Queues
        | Part::References
        | Part::Mailboxes
        | Part::Pools => table_row(t, part, i),
        Part::ReadyWord
        | Part::SemaphoreWords
        | Part::QueueWords
        | Part::MailboxWords
        | Part::PoolWords => word_row(words, part, i),
        _ => sum_row(account, t, part, i),
    }
}

// What stands before a part's rows.
#[tactic(auto, unfolding(crate::specs::Views::head_text))]
fn heading(part: Part) -> &'static [u8]
    ensures { result.now ≡ head_text (part_number part) }
{
    match part {
        Part::MailboxSums => b"mailbox posted fetched lost present\n",
        Part::PoolSums => b"pool added free out\n",
        Part::ObjectSums => b"pool object thread step\n",
        Part::ListHead => b"step code run woke done\n",
        Part::WhyHead => b"step thread cause object message\n",
        _ => b"",
    }
}

// How many rows a part has: as many as there are objects, each mailbox with two words, each pool with two rows and 32 objects.
#[tactic(auto, unfolding(crate::specs::Views::rows_in))]
fn rows_in(z: Sizes, part: Part) -> u8
    ensures { result ≡ rows_in z (part_number part) }
{
    match part {
        Part::Step | Part::Answer | Part::ReadyWord | Part::Clock | Part::Steps | Part::Answered =>
            1,
        Part::Threads => least(z.threads, 16),
        Part::Semaphores | Part::SemaphoreWords => least(z.semaphores, 16),
        Part::Queues | Part::QueueWords => least(z.queues, 8),
        Part::References => least(z.references, 8),
        Part::Mailboxes | Part::MailboxSums => least(z.mailboxes, 4),
        Part::MailboxWords => 2 * least(z.mailboxes, 4),
        Part::Pools => 2 * least(z.pools, 4),
        Part::PoolWords | Part::PoolSums => least(z.pools, 4),
        Part::ObjectSums => 32 * least(z.pools, 4),
        Part::Wakings => 16,
        Part::ListHead | Part::WhyHead => 0,
    }
}

// A part: what stands before its rows, and these.
#[tactic(auto, unfolding(crate::specs::Views::part_text))]
fn put_part(sheet: &mut Sheet, x: Seen, part: Part)
    ensures { Puts sheet.old sheet.new (part_text x (part_number part)) }
{
    let t = x.tables;
    sheet.put_word(heading(part));
    for i in 0..rows_in(t.sizes, part) {
        put_row(sheet, row_of(x, part, i));
    }
}

// Some parts, one behind the other.
#[tactic(auto, unfolding(crate::specs::Views::parts_text))]
pub(crate) fn put_parts(sheet: &mut Sheet, x: Seen, from: u8, n: u8)
    ensures { Puts sheet.old sheet.new (parts_text x from n) }
{
    for i in 0..n {
        if let Some(part) = part_of(from.wrapping_add(i)) {
            put_part(sheet, x, part);
        }
    }
}

// Where reading stopped at a bad record: `stopped`, its number, the code.
fn put_stop(sheet: &mut Sheet, found: Result<Option<Record>, BadRecord>)
    ensures { Puts sheet.old sheet.new (stop_text (told_found found)) }
{
    match found {
        Ok(_) => {}
        Err(bad) => put_row(
            sheet,
            brief(
                *b"stopped\0\0",
                Item::Long(bad.number as u64),
                Item::Number(bad.why as u32),
            ),
        ),
    }
}

// Ticks a second of what is printed of a trace, which has no frequency in it: the old controllers'. It is given, and does not follow
// the usual one (`kernel`, `USUAL_FREQUENCY`), so that no stored listing changes with that.
const LISTED_FREQUENCY: u32 = 1000;

// Fresh tables of the sizes, at that frequency, and no step yet.
pub(crate) fn fresh_seen(sizes: Sizes) -> Seen
    ensures { result ≡ fresh_seen sizes }
{
    let made = make(sizes, Some(LISTED_FREQUENCY));
    let Fresh { tables, clock } = made.unwrap_or_else(|_| none_made());
    let found = tables.kernel.threads;
    let account = fresh_account();
    let none = Step {
        kind: 0,
        caller: 0,
        object: 0,
        a: 0,
        timeout: 0,
    };
    let outcome = Outcome {
        code: 0,
        running: 0,
        woken: 0,
        finished: 0,
        message: 0,
        datum: 0,
    };
    Seen {
        number: 0,
        step: none,
        found: found,
        outcome: outcome,
        tables: tables,
        clock: clock,
        account: account,
    }
}

// What a result reports of finished calls.
fn report_of(o: Outcome) -> Report
    ensures { result ≡ report_of o }
{
    Report {
        code: o.code,
        finished: o.finished,
        message: o.message,
        datum: o.datum,
    }
}

// What is known behind a step, which is the record of this number.
#[tactic(auto, unfolding(crate::specs::Views::seen_after))]
fn see(number: u32, x: Seen, s: Step) -> Seen
    ensures { result ≡ seen_after number x s }
{
    let old = x.tables;
    let found = old.kernel.threads;
    let y = step(old, x.clock, s);
    let outcome = y.outcome;
    let tables = y.tables;
    let clock = y.clock;
    let report = report_of(outcome);
    let before = x.account;
    let account = account_step(before, number, old, s, report, tables);
    Seen {
        number: number,
        step: s,
        found: found,
        outcome: outcome,
        tables: tables,
        clock: clock,
        account: account,
    }
}

// What is known behind a record of this number.
fn see_read(number: u32, x: Seen, found: Result<Option<Record>, BadRecord>) -> Seen
    ensures { result ≡ seen_behind number x (told_sizes found) (told_found found) }
{
    match found {
        Ok(Some(Record::Sizes(z))) => fresh_seen(z),
        Ok(Some(Record::Step(s))) => see(number, x, s),
        _ => x,
    }
}

// Which parts are shown of it: from which on, and how many.
#[derive(Clone, Copy)]
struct Shown {
    from: u8,
    n: u8,
}

fn shown_of(v: Parts, found: Result<Option<Record>, BadRecord>) -> Shown
    ensures { result ≡ shown_parts v (told_found found) }
{
    match found {
        Ok(Some(Record::Sizes(_))) => Shown { from: 0, n: 0 },
        Ok(Some(Record::Step(_))) => Shown {
            from: v.step,
            n: v.steps,
        },
        _ => Shown {
            from: v.end,
            n: v.ends,
        },
    }
}

// The next record of a trace: it is read, and its text goes on the sheet behind what was there.
pub(crate) fn list_next(sheet: &mut Sheet, s: &[u8], x: Listing, number: u32, v: Parts) -> Listing
    ensures { Listed sheet.old sheet.new x result (record_of v number x.seen (next_read s.now x.at)) }
{
    let read = read_at(s, x.at);
    let found = read.found;
    let seen = see_read(number, x.seen, found);
    let shown = shown_of(v, found);
    put_parts(sheet, seen, shown.from, shown.n);
    put_stop(sheet, found);
    Listing {
        seen: seen,
        at: read.next,
    }
}
