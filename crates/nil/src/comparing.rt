// What differs in two files of saved tables.
use crate::files::{Console, LONGEST, length_of, read_file};
use compare::cells::Kept;
use compare::saving::load;
use kernel::refusals::Refusal;
use lists::texts::tell_changes;
use std::io;
use std::io::Write;

// Why two sets of tables cannot be compared.
fn refuse_pair(
    on: Console,
    old: &[u8],
    a: Kept,
    new: &[u8],
    b: Kept,
    why: Refusal,
) -> io::Result<()> {
    on.print_refused(why as u16)?;
    match why {
        Refusal::Tables => {
            if !on.refuse_tables(old, a)? {
                on.refuse_tables(new, b)?;
            }
            Ok(())
        }
        _ => on.refuse_both(old, new),
    }
}

// The text before a place. One that filled the buffer may lack its end, and is not written: there is none so long.
fn write_text(on: Console, out: &[u8], end: usize) -> io::Result<()> {
    if end < out.len() {
        let mut output = on.rt.stdout();
        match output.write_all(&out[..end]) {
            Ok(()) => Ok(()),
            Err(e) => on.complain(b"standard output", e),
        }
    } else {
        Ok(())
    }
}

fn compare_kept(on: Console, old: &[u8], a: Kept, new: &[u8], b: Kept) -> io::Result<()> {
    let mut out = [0u8; 65536];
    match tell_changes(a, b, &mut out) {
        Ok(end) => write_text(on, &out, end),
        Err(why) => refuse_pair(on, old, a, new, b, why),
    }
}

fn compare_bytes(on: Console, old: &[u8], s: &[u8], new: &[u8], t: &[u8]) -> io::Result<()> {
    match load(s) {
        Err(why) => on.refuse_file(old, why, s),
        Ok(a) => match load(t) {
            Err(why) => on.refuse_file(new, why, t),
            Ok(b) => compare_kept(on, old, a, new, b),
        },
    }
}

// The files in arguments i and i + 1.
pub(crate) fn compare_files(on: Console, i: u16) -> io::Result<()> {
    let mut old = [0u8; LONGEST];
    let a = length_of(on.rt, i as usize, &mut old);
    let mut new = [0u8; LONGEST];
    let b = length_of(on.rt, i as usize + 1, &mut new);
    let mut s = [0u8; 4096];
    let n = match read_file(on.rt, &old[..a], &mut s) {
        Ok(n) => n,
        Err(e) => return on.complain(&old[..a], e),
    };
    let mut t = [0u8; 4096];
    let m = match read_file(on.rt, &new[..b], &mut t) {
        Ok(m) => m,
        Err(e) => return on.complain(&new[..b], e),
    };
    compare_bytes(on, &old[..a], &s[..n], &new[..b], &t[..m])
}
