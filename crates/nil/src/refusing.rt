// Refusals in words: on standard error which file, and why; on standard output a line `refused`, with the number where there is one.
use crate::files::Console;
use compare::cells::Kept;
use compare::saving::{FILE_LENGTH, LAYOUT};
use kernel::refusals::Refusal;
use rules::finding::find_broken;
use std::io;
use std::io::Write;

impl<'a> Console<'a> {
    pub(crate) fn print_refused(self, code: u16) -> io::Result<()> {
        let mut out = self.rt.stdout();
        write!(out, "refused {code}\n")
    }

    // Whom a complaint is of.
    pub(crate) fn say_whose(self, path: &[u8]) -> io::Result<()> {
        self.say(self.name)?;
        self.say(b": ")?;
        self.say(path)?;
        self.say(b": ")
    }

    fn say_short(self, file: &[u8]) -> io::Result<()> {
        self.say(b"cut short: it has ")?;
        self.say_number(file.len() as u64)?;
        self.say(b" bytes of ")?;
        self.say_number(FILE_LENGTH as u64)
    }

    // Another layout's number stands in a file's first four bytes, the lowest first; fewer have none.
    fn say_layout(self, file: &[u8]) -> io::Result<()> {
        match file {
            [a, b, c, d, ..] => {
                self.say(b"saved by another layout: its number is ")?;
                self.say_number(u32::from_le_bytes([*a, *b, *c, *d]) as u64)?;
                self.say(b", this program's is ")?;
                self.say_number(LAYOUT as u64)
            }
            _ => self.say_short(file),
        }
    }

    // A file that is no saved tables of this layout.
    pub(crate) fn refuse_file(self, path: &[u8], why: Refusal, file: &[u8]) -> io::Result<()> {
        self.print_refused(why as u16)?;
        self.say_whose(path)?;
        match why {
            Refusal::Version => self.say_layout(file)?,
            Refusal::Cut => self.say_short(file)?,
            Refusal::Length => {
                self.say(b"too long: it has more than ")?;
                self.say_number(FILE_LENGTH as u64)?;
                self.say(b" bytes")?;
            }
            _ => self.say(b"damaged: its checksum is not that of its bytes")?,
        }
        self.say(b"\n")
    }

    // Tables that do not hang together, and whether these are such.
    pub(crate) fn refuse_tables(self, path: &[u8], a: Kept) -> io::Result<bool> {
        let Some(broken) = find_broken(a.tables, a.clock) else {
            return Ok(false);
        };
        self.say_whose(path)?;
        self.say(b"the tables do not hang together: rule ")?;
        self.say_number(broken.rule as u64)?;
        self.say(b", row ")?;
        self.say_number(broken.row as u64)?;
        self.say(b" (docs/RULES.md)\n")?;
        Ok(true)
    }

    // Two files whose tables cannot be compared.
    pub(crate) fn refuse_both(self, old: &[u8], new: &[u8]) -> io::Result<()> {
        self.say(self.name)?;
        self.say(b": ")?;
        self.say(old)?;
        self.say(b" and ")?;
        self.say(new)?;
        self.say(b": their sizes or slots differ\n")
    }

    // A list's line that cannot be applied.
    pub(crate) fn refuse_line(self, path: &[u8], line: u32, why: &[u8]) -> io::Result<()> {
        let mut out = self.rt.stdout();
        out.write_all(b"refused\n")?;
        self.say_whose(path)?;
        self.say(b"line ")?;
        self.say_number(line as u64)?;
        self.say(why)?;
        self.say(b"\n")
    }
}
