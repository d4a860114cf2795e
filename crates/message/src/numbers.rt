// The numbers of kinds and causes, and the fault that a reason makes.
ghost use Rattle.std.specs.Prelude.{◌≡◌};
ghost use Rattle.message.specs.declared.types.Reason.TheVariants.{Value as the_value};
ghost use Rattle.message.specs.Format.{cause_of, number_of, kind_number, kind_of_number, fault};

use crate::{Cause, Kind, MessageFault, Reason};
use value::ValueFault;

impl From<Kind> for u32 {
    ghost from_gives = { λ kind n. n ≡ kind_number kind };

    fn from(kind: Kind) -> u32 {
        kind as u32
    }
}

impl TryFrom<u32> for Kind {
    type Error = MessageFault;

    ghost try_from_gives = { λ n kind. kind ≡ kind_of_number n };

    fn try_from(number: u32) -> Result<Kind, MessageFault> {
        match number {
            1 => Ok(Kind::First),
            2 => Ok(Kind::Second),
            3 => Ok(Kind::Suspicion),
            4 => Ok(Kind::Decision),
            _ => Err(Reason::Kind.at(0)),
        }
    }
}

impl From<Cause> for u8 {
    ghost from_gives = { λ cause n. n ≡ number_of cause };

    fn from(cause: Cause) -> u8 {
        cause as u8
    }
}

impl From<Reason> for Cause {
    ghost from_gives = { λ reason cause. cause ≡ cause_of reason };

    fn from(reason: Reason) -> Cause {
        match reason {
            Reason::Short => Cause::Short,
            Reason::Kind => Cause::Kind,
            Reason::Range => Cause::Range,
            Reason::Value(_) => Cause::Value,
        }
    }
}

impl From<ValueFault> for Reason {
    ghost from_gives = { λ f r. r ≡ the_value f };

    fn from(fault: ValueFault) -> Reason {
        Reason::Value(fault)
    }
}

impl Reason {
    // The fault of the unit at `place`.
    pub fn at(self, place: usize) -> MessageFault
        ensures { result ≡ fault self place }
    {
        MessageFault {
            reason: self,
            place,
        }
    }
}
