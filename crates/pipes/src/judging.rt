// Whether a call on a pipe is refused: "5 for a pipe that isn't there or a buffer length outside 1 to 256; then 6 if its places or count
// don't fit the buffer as a mailbox's fit its slots". All four calls are judged so.
ghost use Rattle.std.specs.Prelude.{◌≡◌};
ghost use Rattle.kernel.specs.Told.{code_of};
ghost use Rattle.pipes.specs.Judging.{is_there, length_fits, pipe_refusal};

use crate::table::{Pipes, pipe_at};
use kernel::refusals::Refusal;
use library::ring::positions_fit;

pub const MOST_PIPES: u16 = 4;

pub const LONGEST_BUFFER: usize = 256;

// Whether the table has pipe i. One that says that it has more than four has none.
fn is_there(t: Pipes, i: u32) -> bool
    ensures { result ≡ is_there t i }
{
    t.number <= MOST_PIPES && i < t.number as u32
}

fn length_fits(n: usize) -> bool
    ensures { result ≡ length_fits n }
{
    1 <= n && n <= LONGEST_BUFFER
}

// Table, pipe and length stay three arguments: C lends them apart at each call, and a struct of them is made for this one.
// The refusal of a call on pipe i with a buffer of n bytes, if any.
#[tactic(auto, unfolding(crate::specs::Judging::pipe_refusal))]
pub fn judge(t: Pipes, i: u32, n: usize) -> Result<(), Refusal>
    ensures { code_of result ≡ pipe_refusal t i n }
{
    if !is_there(t, i) {
        return Err(Refusal::Object);
    }
    if !length_fits(n) {
        return Err(Refusal::Object);
    }
    let pipes = t.pipes;
    let p = pipe_at(pipes, i);
    if !positions_fit(p.positions, n as u16) {
        return Err(Refusal::Value);
    }
    Ok(())
}
