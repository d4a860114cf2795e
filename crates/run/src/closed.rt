// What a run came to.
#[derive(Clone, Copy, Debug, PartialEq, Eq)]
pub struct Closed {
    pub n: u8,
    pub sent: u32,
    pub waiting: u16,
    pub delivered: u64,
    pub lost: u64,
}
