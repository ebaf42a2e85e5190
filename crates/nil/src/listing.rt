// What is printed of a trace.
use crate::files::{Console, LONGEST, input_name, read_input};
use std::env::FillError;
use std::io;
use std::rt::Env;
use text::printing::print_trace;
use text::views::View;

// More bytes than the longest trace has are read, to see refusal 15. Nothing is printed before all is read.
fn print_input(on: Console, path: Option<&[u8]>, view: View) -> io::Result<()> {
    let mut bytes = [0u8; 65536];
    let n = match read_input(on.rt, path, &mut bytes) {
        Ok(n) => n,
        Err(e) => return on.complain(input_name(path), e),
    };
    let mut out = on.rt.stdout();
    match print_trace(&mut out, &bytes[..n], view) {
        Ok(_) => Ok(()),
        Err(e) => on.complain(b"standard output", e),
    }
}

// The trace in argument i, or without it in standard input.
pub(crate) fn print_view(on: Console, i: usize, view: View) -> io::Result<()> {
    let mut path = [0u8; LONGEST];
    match on.rt.arg(i, &mut path) {
        Ok(k) => print_input(on, Some(&path[..k]), view),
        Err(FillError::NotPresent) => print_input(on, None, view),
        Err(FillError::TooLong) => on.complain_of_name(),
    }
}
