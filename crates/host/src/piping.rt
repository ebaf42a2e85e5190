// Byte pipes for a host: it keeps the table of pipes, and lends each call the pipe's buffer.
ghost use Rattle.std.specs.Prelude.{◌≡◌, length};
ghost use Rattle.pipes.specs.Opening.{pipes_fresh, pipe_reset, pipe_resumed};
ghost use Rattle.pipes.specs.Transfer.{write_answer, buffer_written, read_answer, target_read};
ghost use Rattle.pipes.specs.Told.{told_opened, told_moved};

use kernel::refusals::Refusal;
use pipes::opening::{make_pipes, reset_pipe, resume_pipe};
use pipes::table::Pipes;
use pipes::transfer::{Transferred, read_pipe, write_pipe};

// Keeps the table that a call leaves, with code 0; or gives the refusal's number, and nothing changes.
fn keep_table(pipes: &mut Pipes, done: Result<Pipes, Refusal>) -> u8
    ensures { (result ≡ (told_opened pipes.old done).code)
        × (pipes.new ≡ (told_opened pipes.old done).pipes) }
{
    match done {
        Ok(after) => {
            *pipes = after;
            0
        }
        Err(why) => why as u8,
    }
}

// Keeps the table and the number moved that a transfer leaves, with code 0; or gives the refusal's number, with 0 moved.
fn keep_transfer(pipes: &mut Pipes, moved: &mut i32, done: Result<Transferred, Refusal>) -> u8
    ensures { (result ≡ (told_moved pipes.old done).code)
        × (pipes.new ≡ (told_moved pipes.old done).pipes)
        × (moved.new ≡ (told_moved pipes.old done).moved) }
{
    match done {
        Ok(x) => {
            *pipes = x.pipes;
            *moved = x.moved;
            0
        }
        Err(why) => {
            *moved = 0;
            why as u8
        }
    }
}

// Sets so many empty pipes up, with code 0; or refuses with 14, and nothing changes.
#[unsafe(no_mangle)]
pub extern "C" fn nil_pipe_fresh(pipes: &mut Pipes, number: u32) -> u8
    ensures { (result ≡ (pipes_fresh pipes.old number).code)
        × (pipes.new ≡ (pipes_fresh pipes.old number).pipes) }
{
    keep_table(pipes, make_pipes(number))
}

// The next two differ in one call: C calls each by its own name, and `keep_table` has what they share.
// Empties a pipe and sets its reset state, with code 0; or refuses with 5 or 6, and nothing changes.
#[unsafe(no_mangle)]
pub extern "C" fn nil_pipe_reset(pipes: &mut Pipes, pipe: u32, length: usize) -> u8
    ensures { (result ≡ (pipe_reset pipes.old pipe length).code)
        × (pipes.new ≡ (pipe_reset pipes.old pipe length).pipes) }
{
    let t = *pipes;
    keep_table(pipes, reset_pipe(t, pipe, length))
}

// Ends a pipe's reset state, with code 0; or refuses with 5 or 6, and nothing changes.
#[unsafe(no_mangle)]
pub extern "C" fn nil_pipe_resume(pipes: &mut Pipes, pipe: u32, length: usize) -> u8
    ensures { (result ≡ (pipe_resumed pipes.old pipe length).code)
        × (pipes.new ≡ (pipe_resumed pipes.old pipe length).pipes) }
{
    let t = *pipes;
    keep_table(pipes, resume_pipe(t, pipe, length))
}

// Writes what is offered into a pipe, as far as there is room, and the number of bytes moved to `moved`, with code 0: -2 in the reset
// state. Or refuses with 5 or 6, with 0 moved.
#[unsafe(no_mangle)]
pub extern "C" fn nil_pipe_write(
    pipes: &mut Pipes,
    pipe: u32,
    buffer: &mut [u8],
    offered: &[u8],
    moved: &mut i32,
) -> u8
    ensures { (result ≡ (write_answer pipes.old pipe (length buffer.old) (length offered.now)).code)
        × (pipes.new ≡ (write_answer pipes.old pipe (length buffer.old) (length offered.now)).pipes)
        × (buffer.new ≡ buffer_written pipes.old pipe buffer.old offered.now)
        × (moved.new ≡ (write_answer pipes.old pipe (length buffer.old) (length offered.now)).moved) }
{
    let t = *pipes;
    let written = write_pipe(t, pipe, buffer, offered);
    keep_transfer(pipes, moved, written)
}

// Reads out of a pipe, as much as is there and the target holds, and stores the number of bytes moved at `moved`, with code 0: -2 in
// the reset state. Or refuses with 5 or 6, with 0 moved.
#[unsafe(no_mangle)]
pub extern "C" fn nil_pipe_read(
    pipes: &mut Pipes,
    pipe: u32,
    buffer: &[u8],
    target: &mut [u8],
    moved: &mut i32,
) -> u8
    ensures { (result ≡ (read_answer pipes.old pipe (length buffer.now) (length target.old)).code)
        × (pipes.new ≡ (read_answer pipes.old pipe (length buffer.now) (length target.old)).pipes)
        × (target.new ≡ target_read pipes.old pipe buffer.now target.old)
        × (moved.new ≡ (read_answer pipes.old pipe (length buffer.now) (length target.old)).moved) }
{
    let t = *pipes;
    let read = read_pipe(t, pipe, buffer, target);
    keep_transfer(pipes, moved, read)
}
