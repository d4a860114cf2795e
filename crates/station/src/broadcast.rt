// What a station sends to every station, and what reaches it again from another.

// What a message says, by its kind. The cases are those of a message, but an origin is the number of a station
// and no unit of bytes, since this crate knows no message.
#[derive(Clone, Copy, Debug, PartialEq, Eq)]
pub enum Content<V> {
    First { origin: u8, value: V },
    Second { origin: u8, value: V },
    Suspicion,
    Decision { value: V },
}

// A message without its sender and receiver.
#[derive(Clone, Copy, Debug, PartialEq, Eq)]
pub struct Broadcast<V> {
    pub round: u16,
    pub stamp: u32,
    pub content: Content<V>,
}
