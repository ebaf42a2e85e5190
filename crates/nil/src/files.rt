// Files by name, and complaints.
ghost use Rattle.std.specs.Prelude.{◌≤◌, length, IfOk};

use std::fs::File;
use std::io::{ErrorKind, Read, Write};
use std::rt::Env;
use std::{fs, io, str};

// As many bytes as a path has at most.
pub(crate) const LONGEST: usize = 4096;

// What the system says of a name that is longer.
const NAME_TOO_LONG: i32 = 36;

// More bytes than an error has in words.
const MOST_WORDS: usize = 320;

// The machine, and the name that stands before what the program complains of.
#[derive(Clone, Copy)]
pub(crate) struct Console<'a> {
    pub rt: &'a HostRuntime,
    pub name: &'a [u8],
}

impl<'a> Console<'a> {
    pub(crate) fn say(self, words: &[u8]) -> io::Result<()> {
        let mut err = self.rt.stderr();
        err.write_all(words)
    }

    pub(crate) fn say_number(self, n: u64) -> io::Result<()> {
        let mut err = self.rt.stderr();
        write!(err, "{n}")
    }

    // Why what has just failed did: the system's own words, without the number that std puts behind them.
    pub(crate) fn complain(self, what: &[u8], error: io::Error) -> io::Result<()> {
        let mut said = [0u8; MOST_WORDS];
        let mut room: &mut [u8] = &mut said;
        write!(room, "{error}")?;
        let mut err = self.rt.stderr();
        err.write_all(self.name)?;
        err.write_all(b": ")?;
        err.write_all(what)?;
        err.write_all(b": ")?;
        err.write_all(reason(&said))?;
        err.write_all(b"\n")
    }

    // Complains of a name that is too long.
    pub(crate) fn complain_of_name(self) -> io::Result<()> {
        let error = io::Error::from_raw_os_error(NAME_TOO_LONG);
        self.complain(b"the file's name", error)
    }

    // A file with these bytes, in place of what it was.
    pub(crate) fn write_file(self, path: &[u8], bytes: &[u8]) -> io::Result<()> {
        match put_file(self.rt, path, bytes) {
            Ok(()) => Ok(()),
            Err(e) => self.complain(path, e),
        }
    }
}

// What stands before a number, or before the zeros behind the words.
fn reason(said: &[u8]) -> &[u8] {
    match str::from_utf8(said) {
        Ok(words) => match words.split_once(" (os error ") {
            Some((before, _)) => before.as_bytes(),
            None => match words.split_once('\0') {
                Some((before, _)) => before.as_bytes(),
                None => said,
            },
        },
        Err(_) => said,
    }
}

// What the input is called in a complaint: the file if one was given, else standard input.
pub(crate) fn input_name(path: Option<&[u8]>) -> &[u8] {
    match path {
        Some(path) => path,
        None => b"standard input",
    }
}

// The length of argument i, which stands at the buffer's start; 0 where there is none or it is longer than the buffer.
pub(crate) fn length_of(rt: &HostRuntime, i: usize, buf: &mut [u8]) -> usize
    ensures { result ≤ length buf.new }
{
    rt.arg(i, buf).unwrap_or(0)
}

// Reads until the buffer is full or the input ends. The answer is how many bytes stand at its start.
// `text` has its twin: a public function's contract fixes its result (`tools/contracts`), and no contract fixes how many bytes a reader gives.
fn read_full<R: Read>(from: &mut R, buf: &mut [u8]) -> io::Result<usize>
    ensures { IfOk result (λ n. n ≤ length buf.new) }
{
    let mut done: usize = 0;
    // a read says how far it goes on: there is no index to go over
    while done < buf.len() {
        let n = from.read(&mut buf[done..])?;
        if n == 0 {
            return Ok(done);
        }
        done += n;
    }
    Ok(done)
}

// A path as text. A name that is not text names no file.
fn path_text(path: &[u8]) -> io::Result<&str> {
    match str::from_utf8(path) {
        Ok(name) => Ok(name),
        Err(_) => Err(io::Error::from(ErrorKind::InvalidInput)),
    }
}

// The beginning of a file, at most the buffer.
pub(crate) fn read_file(rt: &HostRuntime, path: &[u8], buf: &mut [u8]) -> io::Result<usize>
    ensures { IfOk result (λ n. n ≤ length buf.new) }
{
    let mut file = fs::open(rt, path_text(path)?)?;
    read_full(&mut file, buf)
}

// The same of the file if one was given, else of standard input.
pub(crate) fn read_input(rt: &HostRuntime, path: Option<&[u8]>, buf: &mut [u8]) -> io::Result<usize>
    ensures { IfOk result (λ n. n ≤ length buf.new) }
{
    match path {
        Some(path) => read_file(rt, path, buf),
        None => {
            let mut input = rt.stdin();
            read_full(&mut input, buf)
        }
    }
}

// The file of this name, made where there is none, and emptied; then the bytes.
fn put_file(rt: &HostRuntime, path: &[u8], bytes: &[u8]) -> io::Result<()> {
    let mut file = fs::create(rt, path_text(path)?)?;
    file.write_all(bytes)
}
