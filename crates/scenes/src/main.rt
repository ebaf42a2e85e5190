// Hand-worked scenes: each a short run of steps for one rule of documents 01 and 02 that is easy to get wrong. `steps/` has them in words,
// with the rule, `data/` as traces, under their titles.
// A line for each step: its number, code, running thread, woken mask, finished mask, message and datum.
// `stdout` holds what the papers' words give.
#![tactic(auto)]

use std::io;
use text::files::show_all;
use text::views::View;

fn main(rt: HostRuntime) -> io::Result<()> {
    let mut out = rt.stdout();
    show_all(
        &rt,
        &mut out,
        b"six lines.trace\n\
        highest, not longest.trace\n\
        a timeout gives its place back.trace\n\
        a retry sleeps its full timeout.trace\n\
        a promised object is not given away.trace\n\
        continuing one call wakes another.trace\n\
        flags of the mask alone.trace\n\
        flags that come late.trace\n\
        flags after a timeout.trace\n\
        reset of a semaphore.trace\n\
        refusals in order.trace\n\
        suspend and resume.trace\n\
        sleep until.trace\n\
        mailbox reset.trace\n\
        queues.trace\n\
        post ahead and order.trace\n\
        binary signal.trace\n\
        signal at the top.trace\n",
        View::Answers,
    )?;
    Ok(())
}
