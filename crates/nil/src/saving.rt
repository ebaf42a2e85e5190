// The tables that a trace leaves, saved.
use crate::applying::write_kept;
use crate::files::{Console, LONGEST, input_name, length_of, read_input};
use kernel::refusals::Refusal;
use replays::replaying::replay;
use std::env::FillError;
use std::io;
use std::io::Write;
use std::rt::Env;

// Where a trace stopped: as its listing says.
fn print_stop(on: Console, number: usize, why: Refusal) -> io::Result<()> {
    let mut out = on.rt.stdout();
    write!(out, "stopped {number} {}\n", why as u8)
}

// A trace without record 0 leaves no tables.
fn refuse_trace(on: Console, path: Option<&[u8]>, why: Refusal) -> io::Result<()> {
    on.say_whose(input_name(path))?;
    on.say(b"no tables: record 0 is refused with ")?;
    on.say_number(why as u64)?;
    on.say(b"\n")
}

fn save_bytes(on: Console, saved: &[u8], path: Option<&[u8]>, trace: &[u8]) -> io::Result<()> {
    let x = replay(trace);
    let Some(Err(bad)) = x.end else {
        return write_kept(on, saved, x.kept);
    };
    if x.at == 0 {
        return refuse_trace(on, path, bad.why);
    }
    write_kept(on, saved, x.kept)?;
    print_stop(on, bad.number, bad.why)
}

fn save_input(on: Console, saved: &[u8], path: Option<&[u8]>) -> io::Result<()> {
    let mut bytes = [0u8; 65536];
    match read_input(on.rt, path, &mut bytes) {
        Ok(n) => save_bytes(on, saved, path, &bytes[..n]),
        Err(e) => on.complain(input_name(path), e),
    }
}

// SAVED is argument i, and the trace in the next, or without it in standard input.
pub(crate) fn save_trace(on: Console, i: u16) -> io::Result<()> {
    let mut saved = [0u8; LONGEST];
    let k = length_of(on.rt, i as usize, &mut saved);
    let mut path = [0u8; LONGEST];
    match on.rt.arg(i as usize + 1, &mut path) {
        Ok(m) => save_input(on, &saved[..k], Some(&path[..m])),
        Err(FillError::NotPresent) => save_input(on, &saved[..k], None),
        Err(FillError::TooLong) => on.complain_of_name(),
    }
}
