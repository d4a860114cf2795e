// Messages in the places of the table of bytes.
ghost use Rattle.std.specs.Prelude.{◌≡◌, ℕ, ◌+◌, ◌*◌, ◌<◌, ◌≤◌, length, Ok};
ghost use Rattle.message.specs.Format.{all_within};
ghost use Rattle.table.specs.Messages.{addressed, appended, size, understood, written};
ghost use Rattle.table.specs.Places.{place, put};

use message::{Head, Message, MessageFault, ORIGIN_END, Reason};
use station::{Broadcast, Content};
use value::Value;

// How many bytes a place has.
pub fn place_size<V: Value>() -> usize
    ensures { result ≡ size V.Value }
{
    ORIGIN_END + V::WIDTH
}

// The message at place `k`.
#[tactic(auto, using(crate::proofs::Rows::part_length), unfolding(crate::specs::Messages::understood))]
pub fn read_place<V: Value>(bytes: &[u8], k: usize) -> Result<Message<V>, MessageFault>
    requires { (k + 1) * size V.Value ≤ length bytes.now }
    ensures { result ≡ understood V.Value (place bytes.now (k * size V.Value) (size V.Value)) }
{
    let size = place_size::<V>();
    let at = k * size;
    let part = &bytes[at..at + size];
    let m = message::read::<V>(part)?;
    // what was read opens, so this fault is never given
    message::open::<V>(m).map_err(|fault| Reason::Value(fault).at(0))
}

// The message of a broadcast from one station to another, by case: a station knows no message, and no units, and
// First and Second are two documented kinds of one shape.
fn address<V: Value>(b: &Broadcast<V>, sender: u8, receiver: u8) -> Message<V>
    ensures { result ≡ addressed sender b.now receiver }
{
    let head = Head {
        sender: u32::from(sender),
        receiver: u32::from(receiver),
        round: u32::from(b.round),
        stamp: b.stamp,
    };
    match b.content {
        Content::First { origin, value } => Message::First(head, u32::from(origin), value),
        Content::Second { origin, value } => Message::Second(head, u32::from(origin), value),
        Content::Suspicion => Message::Suspicion(head),
        Content::Decision { value } => Message::Decision(head, value),
    }
}

// Fills place `k`: the message, which fits and is in its ranges, and zeros behind it.
#[tactic(auto, using(crate::proofs::Puts::filled, crate::proofs::Puts::putMid_put, crate::proofs::Writes::written_is))]
fn write_place<V: Value>(bytes: &mut [u8], k: usize, m: &Message<V>)
    requires room { (k + 1) * size V.Value ≤ length bytes.old }
    requires ranged { all_within m.now ≡ Ok tt }
    ensures { bytes.new ≡ put bytes.old (k * size V.Value) (written V.Value m.now) }
{
    let size = place_size::<V>();
    let at = k * size;
    let part = &mut bytes[at..at + size];
    part.fill(0);
    let _ = m.write(part);
}

// Appends a broadcast, one message to each of `n` stations, behind the `waiting` ones.
#[tactic(auto, using(crate::proofs::Rows::row_within), unfolding(crate::specs::Messages::appended))]
pub fn append<V: Value>(bytes: &mut [u8], waiting: usize, n: u8, sender: u8, b: &Broadcast<V>)
    requires { ((waiting + n) * size V.Value ≤ length bytes.old) × (((j : ℕ) → j < n → all_within (addressed sender b.now j) ≡ Ok tt)) }
    ensures { bytes.new ≡ appended V.Value bytes.old waiting n sender b.now }
{
    // The places are counted, since an invariant cannot name the bytes that `chunks_exact_mut` has lent.
    for j in 0..n {
        let m = address(b, sender, j);
        write_place(bytes, waiting + usize::from(j), &m);
    }
}
