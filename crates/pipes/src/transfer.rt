// The two transfers, both immediate: chPipeWriteTimeout and chPipeReadTimeout with TIME_IMMEDIATE. They wake nobody.
ghost use Rattle.std.specs.Prelude.{◌≡◌, length, Ok};
ghost use Rattle.pipes.specs.Transfer.{gone_on, write_answer, buffer_written, read_answer, target_read};
ghost use Rattle.pipes.specs.Told.{told_moved};

use crate::carrying::carry;
use crate::judging::judge;
use crate::table::{Pipe, Pipes, pipe_at, set_pipe};
use kernel::numbers::WAS_RESET;
use kernel::refusals::Refusal;
use library::ring::Positions;

// What a transfer leaves of the table, and the number of bytes moved, or -2.
#[derive(Clone, Copy)]
pub struct Transferred {
    pub pipes: Pipes,
    pub moved: i32,
}

// The table and the answer where k bytes moved and pipe i stands at these positions then.
#[tactic(auto, unfolding(crate::specs::Transfer::gone_on))]
fn go_on(t: Pipes, i: u32, q: Positions, k: u16) -> Transferred
    ensures { told_moved t (Ok result) ≡ gone_on t i q k }
{
    let p = Pipe {
        positions: q,
        reset: 0,
    };
    let after = set_pipe(t, i, p);
    Transferred {
        pipes: after,
        moved: k as i32,
    }
}

// Stays apart from `read_pipe`: the lent slices change places, and what is left of one body is the test of the reset state.
// Copies what is offered, as far as there is room, from the write place on. In reset state nothing moves.
#[tactic(auto, unfolding(crate::specs::Transfer::write_answer, crate::specs::Transfer::buffer_written))]
pub fn write_pipe(
    t: Pipes,
    i: u32,
    buffer: &mut [u8],
    offered: &[u8],
) -> Result<Transferred, Refusal>
    ensures answer { told_moved t result ≡ write_answer t i (length buffer.old) (length offered.now) }
    ensures buffer { buffer.new ≡ buffer_written t i buffer.old offered.now }
{
    let n = buffer.len();
    judge(t, i, n)?;
    let pipes = t.pipes;
    let p = pipe_at(pipes, i);
    if p.reset != 0 {
        return Ok(Transferred {
            pipes: t,
            moved: WAS_RESET,
        });
    }
    let q = p.positions;
    let at = q.write as usize;
    let k = offered.len().min(n - q.count as usize);
    carry(buffer, at, offered, 0, k);
    let next = Positions {
        read: q.read,
        write: ((at + k) % n) as u16,
        count: q.count + k as u16,
    };
    Ok(go_on(t, i, next, k as u16))
}

// Copies what is there, as far as the target goes, from the read place on. In reset state nothing moves.
#[tactic(auto, unfolding(crate::specs::Transfer::read_answer, crate::specs::Transfer::target_read))]
pub fn read_pipe(t: Pipes, i: u32, buffer: &[u8], target: &mut [u8]) -> Result<Transferred, Refusal>
    ensures answer { told_moved t result ≡ read_answer t i (length buffer.now) (length target.old) }
    ensures target { target.new ≡ target_read t i buffer.now target.old }
{
    let n = buffer.len();
    judge(t, i, n)?;
    let pipes = t.pipes;
    let p = pipe_at(pipes, i);
    if p.reset != 0 {
        return Ok(Transferred {
            pipes: t,
            moved: WAS_RESET,
        });
    }
    let q = p.positions;
    let at = q.read as usize;
    let k = target.len().min(q.count as usize);
    carry(target, 0, buffer, at, k);
    let next = Positions {
        read: ((at + k) % n) as u16,
        write: q.write,
        count: q.count - k as u16,
    };
    Ok(go_on(t, i, next, k as u16))
}
