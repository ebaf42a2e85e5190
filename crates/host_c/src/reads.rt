// The trace reader. Each function hands on what it was lent to the one of its name in crate host.
ghost use Rattle.std.specs.Prelude.{◌≡◌};
ghost use Rattle.host.specs.Reads.{read_at};

use host::reads::ReadResult;

// Reads the record at a place of the trace.
#[unsafe(no_mangle)]
pub extern "C" fn nil_read(s: &[u8], at: usize, res: &mut ReadResult)
    ensures { res.new ≡ read_at s.now at }
{
    host::reads::nil_read(s, at, res);
}
