// What a run came to, in words.
use run::Closed;
use std::fmt;
use value::GradedMap;

// What a station has decided, if it has; the words of a map are those of this program, with commas.
#[derive(Clone, Copy)]
pub(super) struct Decision(pub Option<GradedMap>);

impl fmt::Display for Decision {
    fn fmt<W: fmt::Write>(&self, f: &mut fmt::Formatter<W>) -> fmt::Result {
        match self.0 {
            Some(GradedMap { map, grade, verso }) => {
                write!(f, "map {map}, grade {grade}, verso {verso}")
            }
            None => write!(f, "none"),
        }
    }
}

// The counts of messages.
#[derive(Clone, Copy)]
pub(super) struct Counts(pub Closed);

impl fmt::Display for Counts {
    fn fmt<W: fmt::Write>(&self, f: &mut fmt::Formatter<W>) -> fmt::Result {
        let Closed {
            n: _,
            sent,
            waiting,
            delivered,
            lost,
        } = self.0;
        write!(
            f,
            "sent {sent}, waiting {waiting}, delivered {delivered}, lost {lost}"
        )
    }
}
