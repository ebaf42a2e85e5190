// The pipes of a host: up to four records. Each has the positions of a ring, as a mailbox's, and a reset state; its buffer, and with it
// the ring's length, is lent at each call.
ghost use Rattle.std.specs.Prelude.{◌≡◌};
ghost use Rattle.pipes.specs.Table.{blank_pipe, pipe_in, with_pipe};

use library::ring::Positions;

#[repr(C)]
#[derive(Clone, Copy)]
pub struct Pipe {
    pub positions: Positions,
    // any value but 0 is the reset state
    pub reset: u16,
}

#[repr(C)]
#[derive(Clone, Copy)]
pub struct Pipes {
    pub pipes: [Pipe; 4],
    // how many there are
    pub number: u16,
}

// An empty pipe.
pub fn blank_pipe() -> Pipe
    ensures { result ≡ blank_pipe }
{
    let positions = Positions {
        read: 0,
        write: 0,
        count: 0,
    };
    Pipe {
        positions: positions,
        reset: 0,
    }
}

// The record of a pipe; an empty one past the table.
pub fn pipe_at(pipes: [Pipe; 4], i: u32) -> Pipe
    ensures { result ≡ pipe_in pipes i }
{
    let at = i as usize;
    if at < 4 { pipes[at] } else { blank_pipe() }
}

// The table with a pipe's record anew.
pub fn set_pipe(t: Pipes, i: u32, p: Pipe) -> Pipes
    ensures { result ≡ with_pipe t i p }
{
    let at = i as usize;
    let mut r = t;
    if at < 4 {
        r.pipes[at] = p;
    }
    r
}
