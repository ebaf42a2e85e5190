// The trace writer for a host, into a buffer that it lends.
ghost use Rattle.std.specs.Prelude.{◌≡◌};
ghost use Rattle.trace.specs.Writer.{written_code, sizes_answer, sizes_written, step_answer, step_written};
ghost use Rattle.trace.specs.Told.{told_written};
ghost use Rattle.host.specs.Request.{step_of};
ghost use Rattle.host.specs.Writes.{place_written};

use crate::request::{Request, step_of};
use kernel::refusals::Refusal;
use library::sizes::Sizes;
use trace::writer::{write_sizes, write_step};

// Keeps the place behind a record, with code 0; or gives the refusal's number, and the place stays.
fn keep_place(next: &mut usize, done: Result<usize, Refusal>) -> u8
    ensures { (result ≡ written_code (told_written done)) × (next.new ≡ place_written (told_written done) next.old) }
{
    match done {
        Ok(place) => {
            *next = place;
            0
        }
        Err(why) => why as u8,
    }
}

// Writes the version byte and record 0 at the start of the buffer, and the place after them to `next`, with code 0;
// or refuses with 14, 15 or 16, and nothing changes.
#[unsafe(no_mangle)]
pub extern "C" fn nil_write_sizes(buf: &mut [u8], sizes: &Sizes, next: &mut usize) -> u8
    ensures { (result ≡ written_code (sizes_answer sizes.now buf.old))
        × (buf.new ≡ sizes_written sizes.now buf.old)
        × (next.new ≡ place_written (sizes_answer sizes.now buf.old) next.old) }
{
    let z = *sizes;
    keep_place(next, write_sizes(buf, z))
}

// Writes one step's record at a place of the buffer, and the place after it to `next`, with code 0;
// or refuses with 15 or 16, and nothing changes.
#[unsafe(no_mangle)]
pub extern "C" fn nil_write_step(
    buf: &mut [u8],
    at: usize,
    request: &Request,
    next: &mut usize,
) -> u8
    ensures { (result ≡ written_code (step_answer at buf.old))
        × (buf.new ≡ step_written (step_of request.now) at buf.old)
        × (next.new ≡ place_written (step_answer at buf.old) next.old) }
{
    let s = step_of(*request);
    keep_place(next, write_step(buf, at, s))
}
