// A view of a trace, written to a sink.
// What is handed to the write call is the buffer up to its end, and what stands there is the contracts': a record's text is put behind what
// was there (`list_next`), and the records' texts are the view's (`view-text`, proofs/ViewLaws.antt). Outside every statement stay that the
// write call writes what it is handed, and here the lines that hand it over: `write_out`, where it is called, and the place 0 behind it.
ghost use Rattle.std.specs.Prelude.{◌≡◌, IfOk};
ghost use Rattle.text.specs.Ending.{place_read};
ghost use Rattle.text.specs.Views.{seen_from};

use crate::views::{Listing, Parts, View, fresh_seen, list_next, parts_of, put_parts};
use buffers::putting::Sheet;
use library::sizes::no_sizes;
use std::io;
use std::io::Write;

// More reads than the longest trace has records.
const READS: u32 = 5000;
// The buffer is written out where it holds more than this: a record's text, which is a few kilobytes at most, fits into what is left.
const NEARLY_FULL: usize = 32768;

// A text that filled the buffer may lack its end, and is not written: there is none so long.
// The only error is the sink's, of its write; it leaves the buffer as it was, of which a part may have been written.
fn write_out<W: Write>(sink: &mut W, out: &[u8], end: usize) -> io::Result<usize>
    ensures { IfOk result (λ r. r ≡ 0) }
{
    if end < out.len() {
        sink.write_all(&out[..end])?;
    }
    Ok(0)
}

// Prints the records from a listing's place on, which have the numbers from 0 on. The answer is the listing where reading ended.
#[tactic(auto, unfolding(crate::specs::Ending::place_read, crate::specs::Views::seen_from))]
fn print_records<W: Write>(
    sink: &mut W,
    sheet: &mut Sheet,
    s: &[u8],
    first: Listing,
    v: Parts,
) -> io::Result<Listing>
    ensures { IfOk result (λ r. (r.at ≡ place_read 5000 s.now first.at) × (r.seen ≡ seen_from v 5000 0 s.now first.seen first.at)) }
{
    let mut x = first;
    for number in 0..READS {
        let at = x.at;
        x = list_next(sheet, s, x, number, v);
        if NEARLY_FULL < sheet.at {
            let end = sheet.at;
            sheet.at = write_out(sink, sheet.out, end)?;
        }
        if x.at == at {
            return Ok(x);
        }
    }
    Ok(x)
}

// Prints a view of a trace. The answer is the place in the trace where reading ended: its end, or the bad record.
// The only error is the sink's, of the write that failed, and the printing ends with it; it leaves the trace, which is only lent, as it was,
// and of the text a first part written.
pub fn print_trace<W: Write>(sink: &mut W, s: &[u8], view: View) -> io::Result<usize>
    ensures { IfOk result (λ r. r ≡ place_read 5000 s.now 0) }
{
    let mut space = [0u8; 65536];
    let mut sheet = Sheet {
        out: &mut space,
        at: 0,
    };
    let v = parts_of(view);
    let fresh = fresh_seen(no_sizes());
    put_parts(&mut sheet, fresh, v.head, v.heads);
    let first = Listing { seen: fresh, at: 0 };
    let last = print_records(sink, &mut sheet, s, first, v)?;
    let end = sheet.at;
    write_out(sink, sheet.out, end)?;
    Ok(last.at)
}
