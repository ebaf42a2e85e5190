// What a step enters into an account: an interrupt's own call, then the threads' calls that finished, in index order.
// A call that finished is read from the step, its result and the tables before and after it.
ghost use Rattle.std.specs.Prelude.{◌≡◌};
ghost use Rattle.accounts.specs.Account.{entered};
ghost use Rattle.accounts.specs.Accounting.{value_of, entry_of, own_call, call_by, answer_in, interrupt_entered, threads_entered, accounted_step};

use crate::account::{Account, Entry, enter};
use kernel::kinds::Kind;
use kernel::numbers::{NOBODY, OK};
use kernel::records::{Answer, Call, Thread};
use kernel::words::has_bit;
use library::calls::Step;
use library::tables::{Mailbox, Tables, mailbox_at};

// What a step's result reports of finished calls: its code, whose calls finished, and an interrupt's answer.
// A code and no option: these are fields of a step's result as it goes to C, and the account's theorem (`account-printed`) is about them.
#[derive(Clone, Copy)]
pub struct Report {
    pub code: u8,
    pub finished: u16,
    pub message: i32,
    pub datum: u32,
}

// The value of a call that finished with this datum, where the mailboxes were as these before the step.
fn value_of(mailboxes: [Mailbox; 4], call: Call, datum: u32) -> u32
    ensures { result ≡ value_of mailboxes call datum }
{
    if call.kind == Kind::Fetch as u16 || call.kind == Kind::Alloc as u16 {
        datum
    } else if call.kind == Kind::MailboxReset as u16 {
        let b = mailbox_at(mailboxes, call.object);
        b.positions.count as u32
    } else {
        call.operand
    }
}

// The step's own call.
fn own_call(s: Step) -> Call
    ensures { result ≡ own_call s }
{
    Call {
        kind: s.kind as u16,
        object: s.object as u16,
        operand: s.a,
        timeout: s.timeout,
    }
}

// The call of thread i: the step's own, if it is the caller, else the one that its record had kept.
pub fn call_by(s: Step, i: u8, kept: Call) -> Call
    ensures { result ≡ call_by s i kept }
{
    if s.caller == i { own_call(s) } else { kept }
}

// The account with the call of a thread or an interrupt that finished with this answer. Only one that finished with 0 is entered.
#[tactic(auto, using(crate::proofs::AccountLaws::entered_none))]
fn enter_answered(
    a: Account,
    number: u32,
    mailboxes: [Mailbox; 4],
    who: u8,
    call: Call,
    answer: Answer,
) -> Account
    ensures { result ≡ entered a number (entry_of mailboxes who call answer) }
{
    if answer.message == OK {
        let value = value_of(mailboxes, call, answer.datum);
        let e = Entry {
            who: who as u16,
            kind: call.kind,
            object: call.object,
            value,
        };
        enter(a, number, e)
    } else {
        a
    }
}

// The answer in a step's result.
fn answer_in(o: Report) -> Answer
    ensures { result ≡ answer_in o }
{
    Answer {
        message: o.message,
        datum: o.datum,
    }
}

// An interrupt's own call, with the answer in the step's result.
fn enter_interrupt(a: Account, number: u32, mailboxes: [Mailbox; 4], s: Step, o: Report) -> Account
    ensures { result ≡ interrupt_entered a number mailboxes s o }
{
    if s.caller == NOBODY {
        enter_answered(a, number, mailboxes, NOBODY, own_call(s), answer_in(o))
    } else {
        a
    }
}

// The threads' calls, where the rows were as `old` before the step and are as `new` after it.
#[tactic(auto, unfolding(crate::specs::Accounting::threads_entered))]
fn enter_threads(
    a: Account,
    number: u32,
    mailboxes: [Mailbox; 4],
    old: [Thread; 16],
    s: Step,
    finished: u16,
    new: [Thread; 16],
) -> Account
    ensures { result ≡ threads_entered a number mailboxes old s finished new }
{
    let mut r = a;
    for i in 0..16u8 {
        if has_bit(finished, i) {
            let call = call_by(s, i, old[i as usize].call);
            r = enter_answered(r, number, mailboxes, i, call, new[i as usize].answer);
        }
    }
    r
}

// The account after the step of this number, with its result and the tables before and after it.
#[tactic(auto, unfolding(crate::specs::Accounting::accounted_step))]
pub fn account_step(
    a: Account,
    number: u32,
    old: Tables,
    s: Step,
    o: Report,
    new: Tables,
) -> Account
    ensures { result ≡ accounted_step a number old s o new }
{
    if o.code != 0 {
        return a;
    }
    let mailboxes = old.mailboxes;
    let was = old.kernel.threads;
    let is = new.kernel.threads;
    let r = enter_interrupt(a, number, mailboxes, s, o);
    enter_threads(r, number, mailboxes, was, s, o.finished, is)
}
