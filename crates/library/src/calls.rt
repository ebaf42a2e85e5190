// A step, and the call that a sleeping thread keeps of it.
ghost use Rattle.std.specs.Prelude.{◌≡◌};
ghost use Rattle.std.specs.Int.{w32};
ghost use Rattle.std.proofs.Common.{to_z};
ghost use Rattle.library.specs.Calls.{keeps_operand, object_of, operand_of, call_of};

use kernel::kinds::Kind;
use kernel::records::Call;

// One call of a thread or an interrupt, or one tick. The caller is a thread's number, or NOBODY for an interrupt.
// (Numbers, as a host's request and a trace have them: `StepOf` and the rest of the paper's statements read these fields.)
#[derive(Clone, Copy)]
pub struct Step {
    pub kind: u8,
    pub caller: u8,
    pub object: u8,
    pub a: u32,
    pub timeout: u32,
}

// The operand read as a signed message.
pub fn as_signed(a: u32) -> i32
    ensures { result ≡ to_z w32 a }
{
    a.cast_signed()
}

// Whether a call of this kind keeps its operand: a sleep's time, an event wait's mask, a post's message.
pub fn keeps_operand(kind: u16) -> bool
    ensures { result ≡ keeps_operand kind }
{
    matches!(
        Kind::try_from(kind),
        Ok(Kind::SleepUntil | Kind::EventWait | Kind::Post | Kind::PostAhead)
    )
}

// The object that a call keeps: none for an event wait.
fn object_of(s: Step) -> u16
    ensures { result ≡ object_of s }
{
    if s.kind as u16 == Kind::EventWait as u16 {
        0
    } else {
        s.object as u16
    }
}

// The operand that a call keeps.
fn operand_of(s: Step) -> u32
    ensures { result ≡ operand_of s }
{
    if keeps_operand(s.kind as u16) { s.a } else { 0 }
}

// The call of a step that may sleep, with 0 for unused fields.
pub fn call_of(s: Step) -> Call
    ensures { result ≡ call_of s }
{
    Call {
        kind: s.kind as u16,
        object: object_of(s),
        operand: operand_of(s),
        timeout: s.timeout,
    }
}
