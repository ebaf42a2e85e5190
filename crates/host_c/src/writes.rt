// The trace writer. Each function hands on what it was lent to the one of its name in crate host.
ghost use Rattle.std.specs.Prelude.{◌≡◌};
ghost use Rattle.trace.specs.Writer.{written_code, sizes_answer, sizes_written, step_answer, step_written};
ghost use Rattle.host.specs.Writes.{place_written};
ghost use Rattle.host.specs.Request.{step_of};

use host::request::Request;
use library::sizes::Sizes;

// Writes the version byte and record 0 at the start of the buffer, and the place after them to `next`, with code 0;
// or refuses with 14, 15 or 16, and nothing changes.
#[unsafe(no_mangle)]
pub extern "C" fn nil_write_sizes(buf: &mut [u8], sizes: &Sizes, next: &mut usize) -> u8
    ensures { (result ≡ written_code (sizes_answer sizes.now buf.old))
        × (buf.new ≡ sizes_written sizes.now buf.old)
        × (next.new ≡ place_written (sizes_answer sizes.now buf.old) next.old) }
{
    host::writes::nil_write_sizes(buf, sizes, next)
}

// Writes one step's record at a place of the buffer, and the place after it to `next`, with code 0;
// or refuses with 15 or 16, and nothing changes.
#[unsafe(no_mangle)]
pub extern "C" fn nil_write_step(
    buf: &mut [u8],
    at: usize,
    request: &Request,
    next: &mut usize,
) -> u8
    ensures { (result ≡ written_code (step_answer at buf.old))
        × (buf.new ≡ step_written (step_of request.now) at buf.old)
        × (next.new ≡ place_written (step_answer at buf.old) next.old) }
{
    host::writes::nil_write_step(buf, at, request, next)
}
