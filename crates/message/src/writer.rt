// Messages into bytes.
ghost use Rattle.std.specs.Prelude.{◌≡◌, ◌+◌, ◌≤◌, length, is_ok, if◌then◌else◌, IfOk};
ghost use Rattle.value.specs.Xdr.{unit};
ghost use Rattle.message.specs.RoundTrips.{ComesBack};
ghost use Rattle.message.specs.Format.{encoded, size_of, head_code, head_within, all_within, put, admits, kind_number, kind_of, head_of};

use crate::range::{HEAD_END, ORIGIN, ORIGIN_END, RECEIVER, ROUND, SENDER, STAMP};
use crate::{Head, Kind, Message, MessageFault, Reason};
use value::Value;

impl Head {
    // The first unit that is out of range.
    fn check(&self) -> Result<(), MessageFault>
        ensures { result ≡ head_within self.now }
    {
        SENDER.check(self.sender)?;
        RECEIVER.check(self.receiver)?;
        ROUND.check(self.round)?;
        STAMP.check(self.stamp)
    }
}

// Writes a unit at `place`.
fn put_unit(out: &mut [u8], place: usize, n: u32)
    requires { place + 4 ≤ length out.old }
    ensures { out.new ≡ put place (unit n) out.old }
{
    out[place..place + 4].copy_from_slice(&n.to_be_bytes());
}

// Writes the five units that a message begins with.
fn put_head(out: &mut [u8], kind: Kind, head: &Head)
    requires { 20 ≤ length out.old }
    ensures { out.new ≡ put 0 (head_code (kind_number kind) head.now) out.old }
{
    put_unit(out, 0, u32::from(kind));
    put_unit(out, SENDER.place, head.sender);
    put_unit(out, RECEIVER.place, head.receiver);
    put_unit(out, ROUND.place, head.round);
    put_unit(out, STAMP.place, head.stamp);
}

// Writes a value at `place`.
fn put_value<V: Value>(out: &mut [u8], place: usize, v: &V)
    requires { place + V.Value.WIDTH ≤ length out.old }
    ensures { out.new ≡ put place (V.Value.code v.now) out.old }
{
    let end = place + V::WIDTH;
    // A value refuses none but another length than its own, and the part has that length.
    let _ = v.encode(&mut out[place..end]);
}

impl<R> Message<R> {
    // What the message is about.
    fn kind(&self) -> Kind
        ensures { result ≡ kind_of self.now }
    {
        match self {
            Message::First(..) => Kind::First,
            Message::Second(..) => Kind::Second,
            Message::Suspicion(_) => Kind::Suspicion,
            Message::Decision(..) => Kind::Decision,
        }
    }

    // The units after the kind.
    pub fn head(&self) -> &Head
        ensures { result.now ≡ head_of self.now }
    {
        match self {
            Message::First(head, ..)
            | Message::Second(head, ..)
            | Message::Suspicion(head)
            | Message::Decision(head, _) => head,
        }
    }
}

impl<V: Value> Message<V> {
    // How many bytes the message takes.
    pub fn size(&self) -> usize
        ensures { result ≡ size_of V.Value self.now }
    {
        match self {
            Message::First(..) | Message::Second(..) => ORIGIN_END + V::WIDTH,
            Message::Suspicion(_) => HEAD_END,
            Message::Decision(..) => HEAD_END + V::WIDTH,
        }
    }

    // The first unit that is out of range.
    fn check(&self) -> Result<(), MessageFault>
        ensures { result ≡ all_within self.now }
    {
        self.head().check()?;
        match self {
            Message::First(_, origin, _) | Message::Second(_, origin, _) => ORIGIN.check(*origin),
            Message::Suspicion(_) | Message::Decision(..) => Ok(()),
        }
    }

    // Writes the message at the front.
    fn put(&self, out: &mut [u8])
        requires { size_of V.Value self.now ≤ length out.old }
        ensures { out.new ≡ put 0 (encoded V.Value self.now) out.old }
    {
        put_head(out, self.kind(), self.head());
        match self {
            Message::First(_, origin, value) | Message::Second(_, origin, value) => {
                put_unit(out, ORIGIN.place, *origin);
                put_value(out, ORIGIN_END, value);
            }
            Message::Suspicion(_) => {}
            Message::Decision(_, value) => put_value(out, HEAD_END, value),
        }
    }

    // Writes the message at the front, and leaves the bytes behind it; or refuses and leaves them all.
    // What was written reads back as the same message.
    pub fn write(&self, out: &mut [u8]) -> Result<(), MessageFault>
        ensures answer { result ≡ admits V.Value (length out.old) self.now }
        ensures left { out.new ≡ (if is_ok result then put 0 (encoded V.Value self.now) out.old else out.old) }
        ensures back { IfOk result (λ _. ComesBack V.Value self.now out.new) }
    {
        if out.len() < self.size() {
            return Err(Reason::Short.at(0));
        }
        self.check()?;
        self.put(out);
        Ok(())
    }
}
