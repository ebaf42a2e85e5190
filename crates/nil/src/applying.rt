// A list applied to a file of saved tables.
use crate::files::{Console, LONGEST, length_of, read_file};
use compare::cells::Kept;
use compare::saving::{FILE_LENGTH, load, save};
use lists::lines::BadLine;
use lists::texts::apply_text;
use std::io;

pub(crate) fn write_kept(on: Console, path: &[u8], a: Kept) -> io::Result<()> {
    let mut file = [0u8; FILE_LENGTH];
    match save(a, &mut file) {
        Ok(()) => on.write_file(path, &file),
        // there is no refusal: the buffer has the file's length
        Err(_) => Ok(()),
    }
}

// The lines applied, and what they leave saved as `new`; nothing is written where a line is no entry of a field.
fn apply_lines(on: Console, a: Kept, list: &[u8], text: &[u8], new: &[u8]) -> io::Result<()> {
    let r = apply_text(a, text);
    let line = r.lines.line;
    match r.lines.stopped {
        None => write_kept(on, new, r.kept),
        Some(BadLine::NoEntry) => on.refuse_line(list, line, b" is no entry"),
        Some(BadLine::NoField) => on.refuse_line(list, line, b" names no field"),
        Some(BadLine::NoRoom) => on.refuse_line(
            list,
            line,
            b" is one entry more than there are fields",
        ),
    }
}

fn apply_bytes(
    on: Console,
    old: &[u8],
    s: &[u8],
    list: &[u8],
    text: &[u8],
    new: &[u8],
) -> io::Result<()> {
    match load(s) {
        Ok(a) => apply_lines(on, a, list, text, new),
        Err(why) => on.refuse_file(old, why, s),
    }
}

// OLD, LIST and NEW are arguments i to i + 2.
pub(crate) fn apply_files(on: Console, i: u16) -> io::Result<()> {
    let mut old = [0u8; LONGEST];
    let a = length_of(on.rt, i as usize, &mut old);
    let mut list = [0u8; LONGEST];
    let b = length_of(on.rt, i as usize + 1, &mut list);
    let mut new = [0u8; LONGEST];
    let c = length_of(on.rt, i as usize + 2, &mut new);
    let mut s = [0u8; 4096];
    let n = match read_file(on.rt, &old[..a], &mut s) {
        Ok(n) => n,
        Err(e) => return on.complain(&old[..a], e),
    };
    let mut text = [0u8; 65536];
    let m = match read_file(on.rt, &list[..b], &mut text) {
        Ok(m) => m,
        Err(e) => return on.complain(&list[..b], e),
    };
    apply_bytes(on, &old[..a], &s[..n], &list[..b], &text[..m], &new[..c])
}
