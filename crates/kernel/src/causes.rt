// Causes of a waking, with document 02's numbers. A record has its cause in 32 bits, and a host may hand over any number there.
ghost use Rattle.std.specs.Prelude.{◌≡◌};
ghost use Rattle.kernel.specs.Causes.{cause_number, Decodes};

use crate::refusals::Refusal;

#[derive(Clone, Copy)]
pub enum Cause {
    // of none yet
    None = 0,
    Signal = 1,
    Release = 2,
    Resume = 3,
    Event = 4,
    Post = 5,
    Fetch = 6,
    Reset = 7,
    Tick = 8,
}

impl Cause {
    pub fn number(self) -> u32
        ensures { result ≡ cause_number self }
    {
        self as u32
    }
}

// The cause of a number; tables with a number that is no cause's are refused with 1.
impl TryFrom<u32> for Cause {
    type Error = Refusal;

    ghost try_from_gives = { Decodes };

    fn try_from(n: u32) -> Result<Cause, Refusal> {
        match n {
            0 => Ok(Cause::None),
            1 => Ok(Cause::Signal),
            2 => Ok(Cause::Release),
            3 => Ok(Cause::Resume),
            4 => Ok(Cause::Event),
            5 => Ok(Cause::Post),
            6 => Ok(Cause::Fetch),
            7 => Ok(Cause::Reset),
            8 => Ok(Cause::Tick),
            _ => Err(Refusal::Tables),
        }
    }
}
