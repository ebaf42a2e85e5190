// The trace reader for a host: the trace is lent, and the place in it is the host's number.
ghost use Rattle.std.specs.Prelude.{◌≡◌};
ghost use Rattle.host.specs.Reads.{no_request, request_of, read_at};

use crate::request::Request;
use library::calls::Step;
use library::sizes::{Sizes, no_sizes};
use trace::cursor::read_at;
use trace::decoding::{Record, number_at};

// What a read found: no step and no sizes at a refusal and at the trace's end.
pub const NOTHING: u32 = 0;

pub const SIZES: u32 = 1;

pub const STEP: u32 = 2;

// A read as a host gets it: the place after it, the record's number, the step or the sizes that it found (else zeros), which of
// them it found, and the refusal's number or 0.
#[repr(C)]
#[derive(Clone, Copy)]
pub struct ReadResult {
    pub next: usize,
    pub number: usize,
    pub step: Request,
    pub sizes: Sizes,
    // Stays a number beside the values: C reads this struct as nil.h lays it out.
    pub found: u32,
    pub code: u32,
}

fn no_request() -> Request
    ensures { result ≡ no_request }
{
    Request {
        kind: 0,
        caller: 0,
        object: 0,
        unused: 0,
        a: 0,
        timeout: 0,
    }
}

// A step in the form in which a host has one.
impl From<Step> for Request {
    ghost from_gives = { λ s q. q ≡ request_of s };

    fn from(s: Step) -> Request {
        Request {
            kind: s.kind,
            caller: s.caller,
            object: s.object,
            unused: 0,
            a: s.a,
            timeout: s.timeout,
        }
    }
}

// The read, by value.
fn find(s: &[u8], at: usize) -> ReadResult
    ensures { result ≡ read_at s.now at }
{
    let read = read_at(s, at);
    let mut done = ReadResult {
        next: read.next,
        number: number_at(at),
        step: no_request(),
        sizes: no_sizes(),
        found: NOTHING,
        code: 0,
    };
    match read.found {
        Ok(Some(Record::Sizes(z))) => {
            done.sizes = z;
            done.found = SIZES;
        }
        Ok(Some(Record::Step(x))) => {
            done.step = Request::from(x);
            done.found = STEP;
        }
        Ok(None) => {}
        Err(bad) => done.code = bad.why as u32,
    }
    done
}

// Reads the record at a place of the trace.
#[unsafe(no_mangle)]
pub extern "C" fn nil_read(s: &[u8], at: usize, res: &mut ReadResult)
    ensures { res.new ≡ read_at s.now at }
{
    let done = find(s, at);
    *res = done;
}
