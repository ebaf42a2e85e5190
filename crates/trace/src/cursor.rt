// A trace reader that keeps hold of the trace and its place in it: a thin layer over `decoding`.
// Whoever keeps the place elsewhere reads by `read_at`.
ghost use Rattle.std.specs.Prelude.{◌≡◌};
ghost use Rattle.trace.specs.Decoding.{next_read, told_read};
ghost use Rattle.trace.specs.Cursor.{moved};

use crate::decoding::{Read, next_record};

#[derive(Clone, Copy)]
pub struct Reader<'a> {
    pub trace: &'a [u8],
    pub at: usize,
}

impl<'a> Reader<'a> {
    // The next record. The reader is moved on only by a record that was read.
    #[tactic(auto, unfolding(crate::specs::Decoding::next_read))]
    pub fn next(&mut self) -> Read
        ensures { (told_read result ≡ next_read self.old.trace.now self.old.at) × (self.new ≡ moved self.old) }
    {
        let at = self.at;
        let found = next_record(self.trace, at);
        self.at = found.next;
        found
    }
}

// The record at a place, by a reader that stands there.
#[tactic(auto, unfolding(crate::specs::Decoding::next_read))]
pub fn read_at(s: &[u8], at: usize) -> Read
    ensures { told_read result ≡ next_read s.now at }
{
    let mut r = Reader { trace: s, at: at };
    r.next()
}
