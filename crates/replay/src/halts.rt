// What keeps a command from its answer.
ghost use Rattle.std.specs.Prelude.{◌≡◌};
ghost use Rattle.replay.specs.Commands.{answered};

use crate::session::Fault;
use spur_graph::{Answer, Refusal};

/// Why a command is not carried out.
#[derive(Clone, Copy, Debug, PartialEq, Eq)]
pub(crate) enum Halt {
    /// It is refused, which is its answer.
    Refused(Refusal),
    /// It met a fault.
    Fault(Fault),
}

impl From<Refusal> for Halt {
    ghost use Rattle.replay.specs.declared.halts.Halt.TheVariants.{Refused};

    ghost from_gives = { λ why h. h ≡ Refused why };

    fn from(why: Refusal) -> Self {
        Halt::Refused(why)
    }
}

impl From<Fault> for Halt {
    ghost use Rattle.replay.specs.declared.halts.Halt.TheVariants as halt;

    ghost from_gives = { λ fault h. h ≡ halt.Fault fault };

    fn from(fault: Fault) -> Self {
        Halt::Fault(fault)
    }
}

/// What a line is answered: a refusal is an answer too, and a fault is none.
pub(crate) fn answered(tried: Result<Answer, Halt>) -> Result<Answer, Fault>
    ensures { result ≡ answered tried }
{
    match tried {
        Ok(answer) => Ok(answer),
        Err(Halt::Refused(why)) => Ok(Answer::Refused(why)),
        Err(Halt::Fault(fault)) => Err(fault),
    }
}
