// One line: a word and two numbers, with a separator between each two.
ghost use Rattle.std.specs.Prelude.{◌≡◌};
ghost use Rattle.lines.specs.Exact.{ExactReading};
ghost use Rattle.lines.specs.Lines.{call_named, reading, seen_pair, split};

use super::number::{classify, read_number};
use super::syntax::{Call, Symbol};

// The bytes before the first separator and those after it.
fn split_field(text: &[u8]) -> Option<(&[u8], &[u8])>
    ensures { seen_pair result ≡ split text.now }
{
    let i = text
        .iter()
        .position(|&b| classify(char::from(b)) == Symbol::Separator)?;
    Some((&text[..i], &text[i + 1..]))
}

// The call of a word and two numbers; a number that the call has no use for is 0. No `TryFrom`, which
// would take the three as one value and give an error that nobody reads.
fn make_call(word: &[u8], first: u64, second: u64) -> Option<Call>
    ensures { result ≡ call_named word.now first second }
{
    match (word, first, second) {
        (b"open", stations, patience) => Some(Call::Open { stations, patience }),
        (b"propose", station, number) => Some(Call::Propose { station, number }),
        (b"start", 0, 0) => Some(Call::Start),
        (b"deliver", place, 0) => Some(Call::Deliver { place }),
        (b"consult", station, 0) => Some(Call::Consult { station }),
        (b"crash", station, 0) => Some(Call::Crash { station }),
        (b"pass", 0, 0) => Some(Call::Pass),
        _ => None,
    }
}

// The call that a line writes, if it writes one.
pub fn read_line(line: &[u8]) -> Option<Call>
    ensures { result ≡ reading line.now }
{
    let (name, numbers) = split_field(line)?;
    let (first, second) = split_field(numbers)?;
    make_call(name, read_number(first)?, read_number(second)?)
}

// A line reads as a call exactly when its three fields say it.
pub fn reading_is_exact()
    ensures { ExactReading }
{}
