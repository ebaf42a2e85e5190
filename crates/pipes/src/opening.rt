// Pipes set up fresh, reset and resumed: what changes the records alone.
ghost use Rattle.std.specs.Prelude.{◌≡◌};
ghost use Rattle.pipes.specs.declared.table.Pipes.{Pipes};
ghost use Rattle.pipes.specs.Opening.{pipes_fresh, pipe_reset, pipe_resumed};
ghost use Rattle.pipes.specs.Told.{told_opened};

use crate::judging::{MOST_PIPES, judge};
use crate::table::{Pipe, Pipes, blank_pipe, pipe_at, set_pipe};
use kernel::refusals::Refusal;

// So many empty pipes: chPipeObjectInit. Refused with 14 above four.
#[tactic(auto, unfolding(crate::specs::Opening::pipes_fresh))]
pub fn make_pipes(number: u32) -> Result<Pipes, Refusal>
    ensures { (t : Pipes) → told_opened t result ≡ pipes_fresh t number }
{
    if (MOST_PIPES as u32) < number {
        return Err(Refusal::Size);
    }
    Ok(Pipes {
        pipes: [blank_pipe(); 4],
        number: number as u16,
    })
}

// Empties a pipe, returns both places to 0 and sets its reset state: chPipeReset.
#[tactic(auto, unfolding(crate::specs::Opening::pipe_reset))]
pub fn reset_pipe(t: Pipes, i: u32, n: usize) -> Result<Pipes, Refusal>
    ensures { told_opened t result ≡ pipe_reset t i n }
{
    judge(t, i, n)?;
    let mut p = blank_pipe();
    p.reset = 1;
    Ok(set_pipe(t, i, p))
}

// Ends a pipe's reset state: chPipeResume.
#[tactic(auto, unfolding(crate::specs::Opening::pipe_resumed))]
pub fn resume_pipe(t: Pipes, i: u32, n: usize) -> Result<Pipes, Refusal>
    ensures { told_opened t result ≡ pipe_resumed t i n }
{
    judge(t, i, n)?;
    let pipes = t.pipes;
    let mut p = pipe_at(pipes, i);
    p.reset = 0;
    Ok(set_pipe(t, i, p))
}
