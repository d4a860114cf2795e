// The decimal reader.
ghost use Rattle.std.specs.Prelude.{◌≡◌};
ghost use Rattle.lines.specs.Lines.{extended_by, number_of, symbol_of};

use super::syntax::Symbol;

// What a character is to the reader of a field.
pub(super) fn classify(c: char) -> Symbol
    ensures { result ≡ symbol_of c }
{
    match c {
        '0' => Symbol::Digit(0),
        '1' => Symbol::Digit(1),
        '2' => Symbol::Digit(2),
        '3' => Symbol::Digit(3),
        '4' => Symbol::Digit(4),
        '5' => Symbol::Digit(5),
        '6' => Symbol::Digit(6),
        '7' => Symbol::Digit(7),
        '8' => Symbol::Digit(8),
        '9' => Symbol::Digit(9),
        ',' => Symbol::Separator,
        _ => Symbol::Other,
    }
}

// One more character behind a number, or none where it is no digit or the number then passes 64 bits.
fn extend(value: u64, c: char) -> Option<u64>
    ensures { result ≡ extended_by value c }
{
    let Symbol::Digit(digit) = classify(c) else {
        return None;
    };
    value.checked_mul(10)?.checked_add(u64::from(digit))
}

// The number of 1 to 20 digits below 2^64 that the text writes.
pub(super) fn read_number(text: &[u8]) -> Option<u64>
    ensures { result ≡ number_of text.now }
{
    if text.is_empty() || text.len() > 20 {
        return None;
    }
    text.iter()
        .try_fold(0, |value, &b| extend(value, char::from(b)))
}
