// Recorded traces, each named for what it shows: a damaged one for each refusal of the reader, and those of a plant. `steps/` has
// them in words, `data/` as they were recorded. `stdout` holds the second program's listings of them, of some their accounts and why
// their threads woke, and for the writer what document 01's words give.
#![tactic(auto)]

use kernel::kinds::Kind;
use kernel::refusals::Refusal;
use library::calls::Step;
use library::sizes::Sizes;
use std::io;
use std::io::Write;
use text::files::show_all;
use text::views::View;
use trace::writer::{write_sizes, write_step};

fn print_written<W: Write>(sink: &mut W, w: Result<usize, Refusal>) -> io::Result<()> {
    match w {
        Ok(end) => writeln!(sink, "written up to {end}"),
        Err(why) => {
            let code = why as u8;
            writeln!(sink, "refused {code}")
        }
    }
}

// Sizes of so many threads and one mailbox, into 10 bytes, which they need, or into one less.
fn put_sizes<W: Write>(sink: &mut W, short: bool, threads: u16) -> io::Result<()> {
    let mut nine = [0u8; 9];
    let mut ten = [0u8; 10];
    let slots = [1, 0, 0, 0];
    let sizes = Sizes {
        threads: threads,
        semaphores: 0,
        queues: 0,
        references: 0,
        mailboxes: 1,
        pools: 0,
        slots: slots,
    };
    if short {
        print_written(sink, write_sizes(&mut nine, sizes))
    } else {
        print_written(sink, write_sizes(&mut ten, sizes))
    }
}

// A tick at a place, into 22 bytes or into more than a trace has.
fn put_tick<W: Write>(sink: &mut W, short: bool, at: usize) -> io::Result<()> {
    let mut few = [0u8; 22];
    let mut many = [0u8; 60001];
    let s = Step {
        kind: Kind::Tick as u8,
        caller: 255,
        object: 0,
        a: 0,
        timeout: 0,
    };
    if short {
        print_written(sink, write_step(&mut few, at, s))
    } else {
        print_written(sink, write_step(&mut many, at, s))
    }
}

// 14 before 16; 15 before 16; then what fits.
fn write_cases<W: Write>(sink: &mut W) -> io::Result<()> {
    sink.write_all(b"writer\n")?;
    put_sizes(sink, true, 17)?;
    put_sizes(sink, true, 16)?;
    put_sizes(sink, false, 17)?;
    put_sizes(sink, false, 16)?;
    put_tick(sink, true, 9)?;
    put_tick(sink, true, 10)?;
    put_tick(sink, true, 59987)?;
    put_tick(sink, true, 59988)?;
    put_tick(sink, false, 59987)?;
    put_tick(sink, false, 59988)
}

// Every refusal of the trace reader, on a damaged trace each; then the traces of a plant, accounts, and why threads woke.
fn main(rt: HostRuntime) -> io::Result<()> {
    let mut out = rt.stdout();
    show_all(
        &rt,
        &mut out,
        b"11-empty.trace\n\
        11-other-version.trace\n\
        12-before-record-0.trace\n\
        12-inside-a-body.trace\n\
        12-inside-a-length.trace\n\
        12-inside-record-0.trace\n\
        12-though-its-length-is-wrong.trace\n\
        13-record-0-below-6.trace\n\
        13-record-0-without-its-slots.trace\n\
        13-step-of-10-bytes.trace\n\
        14-mailbox-of-17-slots.trace\n\
        14-nine-references.trace\n\
        14-no-thread.trace\n\
        15-one-byte-more-than-60000.trace\n",
        View::Lines,
    )?;
    show_all(
        &rt,
        &mut out,
        b"batch-mailbox.trace\n\
        dosing-account.trace\n\
        event-valves.trace\n\
        filler-two-stations.trace\n\
        label-queue.trace\n\
        sixteen-on-one-semaphore.trace\n\
        sleep-until.trace\n",
        View::Lines,
    )?;
    show_all(&rt, &mut out, b"tank-present.trace\n", View::AllTables)?;
    show_all(
        &rt,
        &mut out,
        b"timeout-against-signal.trace\n\
        tote-pool.trace\n",
        View::Lines,
    )?;
    show_all(
        &rt,
        &mut out,
        b"two-flags-one-wait.trace\n\
        whole-line.trace\n\
        why-the-valve-woke.trace\n\
        words-on-the-screen.trace\n",
        View::AllTables,
    )?;
    show_all(
        &rt,
        &mut out,
        b"batch-mailbox.trace\n\
        dosing-account.trace\n\
        tote-pool.trace\n\
        whole-line.trace\n",
        View::Sums,
    )?;
    show_all(
        &rt,
        &mut out,
        b"batch-mailbox.trace\n\
        whole-line.trace\n\
        why-the-valve-woke.trace\n",
        View::Wakings,
    )?;
    write_cases(&mut out)
}
