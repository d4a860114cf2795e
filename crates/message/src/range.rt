// Where the units of a message stand, and their ranges.
ghost use Rattle.std.specs.Prelude.{◌≡◌};
ghost use Rattle.message.specs.Format.{within};

use crate::{MessageFault, Reason};

// The last two stand in crate `station` again, which knows no message.
const LAST_STATION: u32 = 31;

const LAST_ROUND: u32 = 60_000;

const LAST_STAMP: u32 = 6_000_000;

// How many bytes the kind and the head of a message take: an origin, or the value of a decision, follows them.
pub(crate) const HEAD_END: usize = 20;

// How many bytes they take with an origin: the value of an estimate follows them.
pub const ORIGIN_END: usize = 24;

// Where a unit stands in a message, and the least and the greatest number that it may be.
#[derive(Clone, Copy, Debug, PartialEq, Eq)]
pub struct UnitRange {
    pub place: usize,
    pub low: u32,
    pub high: u32,
}

pub const SENDER: UnitRange = UnitRange {
    place: 4,
    low: 0,
    high: LAST_STATION,
};

pub const RECEIVER: UnitRange = UnitRange {
    place: 8,
    low: 0,
    high: LAST_STATION,
};

pub(crate) const ROUND: UnitRange = UnitRange {
    place: 12,
    low: 0,
    high: LAST_ROUND,
};

pub(crate) const STAMP: UnitRange = UnitRange {
    place: 16,
    low: 1,
    high: LAST_STAMP,
};

pub const ORIGIN: UnitRange = UnitRange {
    place: HEAD_END,
    low: 0,
    high: LAST_STATION,
};

impl UnitRange {
    // That the unit may be `n`.
    pub(crate) fn check(self, n: u32) -> Result<(), MessageFault>
        ensures { result ≡ within self.place self.low self.high n }
    {
        if !(self.low..=self.high).contains(&n) {
            return Err(Reason::Range.at(self.place));
        }
        Ok(())
    }
}
