// A message as the stations of a run take it.
ghost use Rattle.std.specs.Prelude.{◌≡◌, ◌<◌, ◌≤◌, IfOk, OnOk};
ghost use Rattle.message.specs.Format.{head_of};
ghost use Rattle.run.specs.Incoming.{Known, Origin, content_for, incoming_for, station_unit};

use message::{Message, MessageFault, ORIGIN, RECEIVER, Reason, SENDER};
use station::{Broadcast, Content};
use value::Value;

// The station that a unit names, which has to be one of `n`.
fn station_among(number: u32, n: u8, place: usize) -> Result<u8, MessageFault>
    ensures answer { result ≡ station_unit n place number }
    ensures number { IfOk result (λ station. station ≡ number) }
    ensures among { OnOk result (number < n) }
{
    if number >= u32::from(n) {
        return Err(Reason::Range.at(place));
    }
    Ok(number as u8)
}

// What a message says, by case: its four kinds are four documented ones, also where two have one shape.
fn content_among<V: Value>(m: &Message<V>, n: u8) -> Result<Content<V>, MessageFault>
    ensures answer { result ≡ content_for n m.now }
    ensures origin { IfOk result (Origin n) }
{
    match m {
        Message::First(_, origin, value) => Ok(Content::First {
            origin: station_among(*origin, n, ORIGIN.place)?,
            value: *value,
        }),
        Message::Second(_, origin, value) => Ok(Content::Second {
            origin: station_among(*origin, n, ORIGIN.place)?,
            value: *value,
        }),
        Message::Suspicion(_) => Ok(Content::Suspicion),
        Message::Decision(_, value) => Ok(Content::Decision { value: *value }),
    }
}

// The message as one of `n` stations takes it.
pub(super) fn incoming<V: Value>(m: &Message<V>, n: u8) -> Result<Broadcast<V>, MessageFault>
    requires { (head_of m.now).round ≤ 60000 }
    ensures answer { result ≡ incoming_for n m.now }
    ensures known { IfOk result (Known n m.now) }
{
    let head = m.head();
    station_among(head.sender, n, SENDER.place)?;
    station_among(head.receiver, n, RECEIVER.place)?;
    let content = content_among(m, n)?;
    Ok(Broadcast {
        round: head.round as u16,
        stamp: head.stamp,
        content,
    })
}
