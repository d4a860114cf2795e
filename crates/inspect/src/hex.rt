// Bytes in hexadecimal.
use std::alloc::{AllocError, Global};

// A digit, or nothing for any other character; `to_digit` would take A to F too.
fn digit(c: u8) -> Option<u8> {
    match c {
        b'0'..=b'9' => Some(c - b'0'),
        b'a'..=b'f' => Some(c - b'a' + 10),
        _ => None,
    }
}

// The bytes that a text gives, two digits each. Blanks between them, and all other characters, are passed over,
// as is a last digit that has no second one.
pub(super) fn bytes_of(heap: Global, text: &[u8]) -> Result<Vec<u8>, AllocError> {
    let mut bytes = Vec::new(heap);
    // one digit is carried on, since those of a whole line would take twice the memory of the bytes that it gives
    let mut high = None;
    for low in text.iter().copied().filter_map(digit) {
        match high.take() {
            Some(first) => bytes.push((first << 4) | low)?,
            None => high = Some(low),
        }
    }
    Ok(bytes)
}
