// Values, messages and faults in words.
use message::{Cause, Head, Message, MessageFault, Reason};
use std::fmt;
use value::{GradedMap, Number};

// Something of another crate that is to be printed in words.
#[derive(Clone, Copy)]
pub(super) struct InWords<T>(pub T);

impl fmt::Display for InWords<Number> {
    fn fmt<W: fmt::Write>(&self, f: &mut fmt::Formatter<W>) -> fmt::Result {
        write!(f, "number {}", self.0.value)
    }
}

// The words of a map in this program, without commas: another program has words of its own.
impl fmt::Display for InWords<GradedMap> {
    fn fmt<W: fmt::Write>(&self, f: &mut fmt::Formatter<W>) -> fmt::Result {
        let GradedMap { map, grade, verso } = self.0;
        write!(f, "map {map} grade {grade} verso {verso}")
    }
}

impl fmt::Display for InWords<Head> {
    fn fmt<W: fmt::Write>(&self, f: &mut fmt::Formatter<W>) -> fmt::Result {
        let Head {
            sender,
            receiver,
            round,
            stamp,
        } = self.0;
        write!(
            f,
            "from {sender} to {receiver}, round {round}, stamp {stamp}"
        )
    }
}

// What both kinds of estimate say: their head, whose estimate it is, and its value.
impl<V: Copy> fmt::Display for InWords<(Head, u32, V)>
where
    InWords<V>: fmt::Display,
{
    fn fmt<W: fmt::Write>(&self, f: &mut fmt::Formatter<W>) -> fmt::Result {
        let (head, origin, value) = self.0;
        write!(
            f,
            "estimate {}, origin {origin}, {}",
            InWords(head),
            InWords(value)
        )
    }
}

impl<V: Copy> fmt::Display for InWords<Message<V>>
where
    InWords<V>: fmt::Display,
{
    fn fmt<W: fmt::Write>(&self, f: &mut fmt::Formatter<W>) -> fmt::Result {
        // First and Second have an arm each: two documented kinds of one shape
        match self.0 {
            Message::First(head, origin, value) => {
                write!(f, "first {}", InWords((head, origin, value)))
            }
            Message::Second(head, origin, value) => {
                write!(f, "second {}", InWords((head, origin, value)))
            }
            Message::Suspicion(head) => write!(f, "suspicion {}", InWords(head)),
            Message::Decision(head, value) => {
                write!(f, "decision {}, {}", InWords(head), InWords(value))
            }
        }
    }
}

impl fmt::Display for InWords<MessageFault> {
    fn fmt<W: fmt::Write>(&self, f: &mut fmt::Formatter<W>) -> fmt::Result {
        let MessageFault { reason, place } = self.0;
        let cause = u8::from(Cause::from(reason));
        match reason {
            Reason::Value(value) => write!(f, "cause {cause} with {} at {place}", value.cause),
            _ => write!(f, "cause {cause} at {place}"),
        }
    }
}
