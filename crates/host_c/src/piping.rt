// Byte pipes. Each function hands on what it was lent to the one of its name in crate host.
ghost use Rattle.std.specs.Prelude.{◌≡◌, length};
ghost use Rattle.pipes.specs.Opening.{pipes_fresh, pipe_reset, pipe_resumed};
ghost use Rattle.pipes.specs.Transfer.{write_answer, buffer_written, read_answer, target_read};

use pipes::table::Pipes;

// Sets so many empty pipes up, with code 0; or refuses with 14, and nothing changes.
#[unsafe(no_mangle)]
pub extern "C" fn nil_pipe_fresh(pipes: &mut Pipes, number: u32) -> u8
    ensures { (result ≡ (pipes_fresh pipes.old number).code)
        × (pipes.new ≡ (pipes_fresh pipes.old number).pipes) }
{
    host::piping::nil_pipe_fresh(pipes, number)
}

// Empties a pipe and sets its reset state, with code 0; or refuses with 5 or 6, and nothing changes.
#[unsafe(no_mangle)]
pub extern "C" fn nil_pipe_reset(pipes: &mut Pipes, pipe: u32, length: usize) -> u8
    ensures { (result ≡ (pipe_reset pipes.old pipe length).code)
        × (pipes.new ≡ (pipe_reset pipes.old pipe length).pipes) }
{
    host::piping::nil_pipe_reset(pipes, pipe, length)
}

// Ends a pipe's reset state, with code 0; or refuses with 5 or 6, and nothing changes.
#[unsafe(no_mangle)]
pub extern "C" fn nil_pipe_resume(pipes: &mut Pipes, pipe: u32, length: usize) -> u8
    ensures { (result ≡ (pipe_resumed pipes.old pipe length).code)
        × (pipes.new ≡ (pipe_resumed pipes.old pipe length).pipes) }
{
    host::piping::nil_pipe_resume(pipes, pipe, length)
}

// Writes what is offered into a pipe, as far as there is room, and the number of bytes moved to `moved`, with code 0: -2 in the reset
// state. Or refuses with 5 or 6, with 0 moved.
#[unsafe(no_mangle)]
pub extern "C" fn nil_pipe_write(
    pipes: &mut Pipes,
    pipe: u32,
    buffer: &mut [u8],
    offered: &[u8],
    moved: &mut i32,
) -> u8
    ensures { (result ≡ (write_answer pipes.old pipe (length buffer.old) (length offered.now)).code)
        × (pipes.new ≡ (write_answer pipes.old pipe (length buffer.old) (length offered.now)).pipes)
        × (buffer.new ≡ buffer_written pipes.old pipe buffer.old offered.now)
        × (moved.new ≡ (write_answer pipes.old pipe (length buffer.old) (length offered.now)).moved) }
{
    host::piping::nil_pipe_write(pipes, pipe, buffer, offered, moved)
}

// Reads out of a pipe, as much as is there and the target holds, and stores the number of bytes moved at `moved`, with code 0: -2 in
// the reset state. Or refuses with 5 or 6, with 0 moved.
#[unsafe(no_mangle)]
pub extern "C" fn nil_pipe_read(
    pipes: &mut Pipes,
    pipe: u32,
    buffer: &[u8],
    target: &mut [u8],
    moved: &mut i32,
) -> u8
    ensures { (result ≡ (read_answer pipes.old pipe (length buffer.now) (length target.old)).code)
        × (pipes.new ≡ (read_answer pipes.old pipe (length buffer.now) (length target.old)).pipes)
        × (target.new ≡ target_read pipes.old pipe buffer.now target.old)
        × (moved.new ≡ (read_answer pipes.old pipe (length buffer.now) (length target.old)).moved) }
{
    host::piping::nil_pipe_read(pipes, pipe, buffer, target, moved)
}
