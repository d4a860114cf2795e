// A table of bytes that is cut into places of one size; the waiting messages fill the places from 0.
#![tactic(auto)]

ghost use Rattle.std.specs.Prelude.{◌≡◌, ◌+◌, ◌-◌, ◌*◌, ◌<◌, ◌≤◌, length, replicate};
ghost use Rattle.table.specs.Places.{put, taken_out};

mod places;

pub use places::{append, place_size, read_place};

// Sets the part at `at` to 0.
#[tactic(auto, using(crate::proofs::Puts::filled_put))]
pub fn clear(bytes: &mut [u8], at: usize, size: usize)
    requires { at + size ≤ length bytes.old }
    ensures { bytes.new ≡ put bytes.old at (replicate size 0) }
{
    bytes[at..at + size].fill(0);
}

// Takes the message at place `k` out of the `waiting` ones.
#[tactic(auto, using(crate::proofs::Puts::copied, crate::proofs::Rows::row_within))]
pub fn take_out(bytes: &mut [u8], size: usize, k: usize, waiting: usize)
    requires { (k < waiting) × (waiting * size ≤ length bytes.old) }
    ensures { bytes.new ≡ taken_out bytes.old size k (waiting - 1) }
{
    let last = (waiting - 1) * size;
    let at = k * size;
    bytes.copy_within(last..last + size, at);
    clear(bytes, last, size);
}
