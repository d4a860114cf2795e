// Messages out of bytes.
ghost use Rattle.std.specs.Prelude.{◌≡◌, IfOk};
ghost use Rattle.message.specs.Borrowing.{Borrows, Part, Rest};
ghost use Rattle.message.specs.RoundTrips.{GoesBack};
ghost use Rattle.message.specs.Format.{united, ranged, kinded, headed, judgement, valued, estimated, bodied, decoded, seen_part, seen_rest, seen_head, seen_value, seen_message, opened};

use crate::range::{HEAD_END, ORIGIN, ORIGIN_END, RECEIVER, ROUND, SENDER, STAMP, UnitRange};
use crate::{Head, Kind, Message, MessageFault, Reason};
use value::{Value, ValueFault};

// The unit off the front, which stands at `place`, and the rest.
fn take_unit(bytes: &[u8], place: usize) -> Result<(u32, &[u8]), MessageFault>
    ensures answer { seen_rest result ≡ united place bytes.now }
    ensures rest { IfOk result (λ u. Rest 4 bytes.entry u.1) }
{
    let [a, b, c, d, rest @ ..] = bytes else {
        return Err(Reason::Short.at(place));
    };
    Ok((u32::from_be_bytes([*a, *b, *c, *d]), rest))
}

impl UnitRange {
    // The same for a unit that has a range.
    fn take(self, bytes: &[u8]) -> Result<(u32, &[u8]), MessageFault>
        ensures answer { seen_rest result ≡ ranged self.place self.low self.high bytes.now }
        ensures rest { IfOk result (λ u. Rest 4 bytes.entry u.1) }
    {
        let (unit, rest) = take_unit(bytes, self.place)?;
        self.check(unit)?;
        Ok((unit, rest))
    }
}

// The kind off the front, and the rest.
fn take_kind(bytes: &[u8]) -> Result<(Kind, &[u8]), MessageFault>
    ensures answer { seen_rest result ≡ kinded bytes.now }
    ensures rest { IfOk result (λ k. Rest 4 bytes.entry k.1) }
{
    let (number, rest) = take_unit(bytes, 0)?;
    Ok((Kind::try_from(number)?, rest))
}

// The five units off the front, and the rest.
fn take_head(bytes: &[u8]) -> Result<(Kind, Head, &[u8]), MessageFault>
    ensures answer { seen_head result ≡ headed bytes.now }
    ensures rest { IfOk result (λ h. Rest 20 bytes.entry h.2) }
{
    let (kind, bytes) = take_kind(bytes)?;
    let (sender, bytes) = SENDER.take(bytes)?;
    let (receiver, bytes) = RECEIVER.take(bytes)?;
    let (round, bytes) = ROUND.take(bytes)?;
    let (stamp, bytes) = STAMP.take(bytes)?;
    let head = Head {
        sender,
        receiver,
        round,
        stamp,
    };
    Ok((kind, head, bytes))
}

// Whether the bytes are a value of the kind `V`.
fn judge<V: Value>(part: &[u8]) -> Result<(), Reason>
    ensures { result ≡ judgement (V.Value.parse part.now) }
{
    let _ = V::decode(part)?;
    Ok(())
}

// The bytes of the value off the front, which stand at `place`.
fn take_value<V: Value>(bytes: &[u8], place: usize) -> Result<&[u8], MessageFault>
    ensures answer { seen_part result ≡ valued V.Value place bytes.now }
    ensures part { IfOk result (λ v. Part 0 V.Value.WIDTH bytes.entry v) }
{
    // By `get` this did not close (`returns-clause-part`): its contract does not say where the part lies.
    if bytes.len() < V::WIDTH {
        return Err(Reason::Short.at(place));
    }
    let part = &bytes[..V::WIDTH];
    judge::<V>(part).map_err(|reason| reason.at(place))?;
    Ok(part)
}

// What follows the head of an estimate: the origin, and the bytes of the value.
fn take_estimate<V: Value>(bytes: &[u8]) -> Result<(u32, &[u8]), MessageFault>
    ensures answer { seen_rest result ≡ estimated V.Value bytes.now }
    ensures part { IfOk result (λ e. Part 4 V.Value.WIDTH bytes.entry e.1) }
{
    let (origin, rest) = ORIGIN.take(bytes)?;
    Ok((origin, take_value::<V>(rest, ORIGIN_END)?))
}

// What follows the head of a message of this kind. First and Second have an arm each: two documented kinds of one shape.
fn take_body<V: Value>(kind: Kind, head: Head, bytes: &[u8]) -> Result<Message<&[u8]>, MessageFault>
    ensures answer { seen_message result ≡ bodied V.Value kind head bytes.now }
    ensures part { IfOk result (λ m. Borrows 0 V.Value.WIDTH bytes.entry m) }
{
    match kind {
        Kind::First => {
            let (origin, value) = take_estimate::<V>(bytes)?;
            Ok(Message::First(head, origin, value))
        }
        Kind::Second => {
            let (origin, value) = take_estimate::<V>(bytes)?;
            Ok(Message::Second(head, origin, value))
        }
        Kind::Suspicion => Ok(Message::Suspicion(head)),
        Kind::Decision => Ok(Message::Decision(head, take_value::<V>(bytes, HEAD_END)?)),
    }
}

// The message that the bytes begin with. Its value is that part of them, not a copy; what it opens to
// is written as the very bytes that were read.
pub fn read<V: Value>(bytes: &[u8]) -> Result<Message<&[u8]>, MessageFault>
    ensures answer { seen_message result ≡ decoded V.Value bytes.now }
    ensures part { IfOk result (λ m. Borrows 20 V.Value.WIDTH bytes.entry m) }
    ensures back { IfOk result (λ m. GoesBack V.Value bytes.now (seen_value m)) }
{
    let (kind, head, rest) = take_head(bytes)?;
    take_body::<V>(kind, head, rest)
}

// The message with its value read. It has an arm for each kind, since a `try_map` that is called only here
// would have these arms and a longer contract.
pub fn open<V: Value>(m: Message<&[u8]>) -> Result<Message<V>, ValueFault>
    ensures { result ≡ opened V.Value (seen_value m.entry) }
{
    Ok(match m {
        Message::First(head, origin, value) => Message::First(head, origin, V::decode(value)?),
        Message::Second(head, origin, value) => Message::Second(head, origin, V::decode(value)?),
        Message::Suspicion(head) => Message::Suspicion(head),
        Message::Decision(head, value) => Message::Decision(head, V::decode(value)?),
    })
}
