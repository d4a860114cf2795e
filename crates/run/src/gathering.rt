// A run that gathers proposals, by its numbers.
ghost use Rattle.run.specs.Sized.{Sized};

// `n` is the number of stations, and `places` the number of places of the byte table, both as at the opening. Types of
// plain numbers, so that the two stand in `Running` too.
#[derive(Drop)]
pub struct Gathering {
    pub(super) n: u8,
    pub(super) places: u16,
    ghost sized: { Sized n places },
}
