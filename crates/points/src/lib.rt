// Reference points: examples worked out by hand, which the definitions have to give.
#![tactic(auto)]

ghost use Rattle.std.specs.Prelude.{◌≡◌};
ghost use Rattle.points.specs.Points.{Points, suspicion_bytes};

use message::{Head, Message};
use value::Number;

// The bytes of a suspicion, which carries no value.
pub type SuspicionBytes = [u8; 20];

// The bytes of a suspicion from station 1 to station 0, in round 2 and with stamp 5: the one example
// that is written out byte by byte. That all points hold stands on this call.
pub fn example_suspicion() -> SuspicionBytes
    ensures bytes { result ≡ suspicion_bytes }
    ensures points { Points }
{
    let head = Head {
        sender: 1,
        receiver: 0,
        round: 2,
        stamp: 5,
    };
    let suspicion: Message<Number> = Message::Suspicion(head);
    let mut out = [0; 20];
    // it fits and is in its ranges, so this is no refusal
    let _ = suspicion.write(&mut out);
    out
}
