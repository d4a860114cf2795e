ghost use Rattle.std.specs.Prelude.{◌≡◌, Some};
ghost use Rattle.detector.specs.Answers.{error_number, error_words};

use std::error::Error;
use std::fmt;

// Why a call was refused.
#[derive(Clone, Copy, PartialEq, Eq, Debug)]
pub enum DetectorError {
    // the number of stations is not 3 to 32
    Stations = 1,
    // no pair of two different stations
    Unknown = 3,
}

impl From<DetectorError> for u8 {
    ghost from_gives = { λ error number. number ≡ error_number error };

    fn from(error: DetectorError) -> u8 {
        error as u8
    }
}

// The words that docs/RULES.md has for these numbers; a run, which has refusals of its own, says them too.
impl fmt::Display for DetectorError {
    ghost output = { λ error. Some (error_words error) };

    fn fmt<W: fmt::Write>(&self, f: &mut fmt::Formatter<W>) -> fmt::Result {
        f.write_str(match self {
            DetectorError::Stations => "stations",
            DetectorError::Unknown => "unknown",
        })
    }
}

impl Error for DetectorError {}
