// Traces in files, each under its title: what the programs with stored outputs show.
ghost use Rattle.std.specs.Prelude.{◌≡◌, ◌≤◌, length, IfOk};

use crate::printing::print_trace;
use crate::views::View;
use std::io::{ErrorKind, Read, Write};
use std::rt::Files;
use std::{fs, io, str};

// Reads until the buffer is full or the input ends. The answer is how many bytes stand at its start.
// The only error is the reader's; it leaves in the buffer what was read until then.
// `nil` has its twin: a public function's contract fixes its result (`tools/contracts`), and no contract fixes how many bytes a reader gives.
fn read_full<R: Read>(from: &mut R, buf: &mut [u8]) -> io::Result<usize>
    ensures { IfOk result (λ n. n ≤ length buf.new) }
{
    let mut done: usize = 0;
    // a read moves on by as many bytes as it gives, not by one: no `for` counts that, and std's `read_exact` refuses a shorter input
    while done < buf.len() {
        let n = from.read(&mut buf[done..])?;
        if n == 0 {
            return Ok(done);
        }
        done += n;
    }
    Ok(done)
}

// The file of this name. A name that is not text names no file.
fn open<R: Files>(rt: &R, path: &[u8]) -> io::Result<R::File> {
    match str::from_utf8(path) {
        Ok(name) => fs::open(rt, name),
        Err(_) => Err(io::Error::from(ErrorKind::InvalidInput)),
    }
}

// The trace in a file, under its name without its ending, `.trace`.
fn show<R: Files, W: Write>(rt: &R, sink: &mut W, path: &[u8], view: View) -> io::Result<()> {
    if 6 <= path.len() {
        let n = path.len() - 6;
        sink.write_all(&path[..n])?;
        sink.write_all(b"\n")?;
    }
    let mut file = open(rt, path)?;
    let mut bytes = [0u8; 65536];
    let n = read_full(&mut file, &mut bytes)?;
    print_trace(sink, &bytes[..n], view)?;
    Ok(())
}

// Each of some files, whose names have a line end after them. The answer is how far the names were read: to their end.
// An error is the file's, where it is not there, cannot be read or has a name that is not text, or the sink's; it leaves the names, which are only lent, as they were, and
// the text of the files before it written, of its own a first part.
pub fn show_all<R: Files, W: Write>(
    rt: &R,
    sink: &mut W,
    names: &[u8],
    view: View,
) -> io::Result<usize>
    ensures { IfOk result (λ r. r ≡ length names.now) }
{
    let mut from: usize = 0;
    let mut read: usize = 0;
    for (i, &b) in names.iter().enumerate() {
        if b == b'\n' {
            show(rt, sink, &names[from..i], view)?;
            from = i + 1;
        }
        // the answer is how far the names were read, so that a loop that ends early has another
        read = i + 1;
    }
    Ok(read)
}
