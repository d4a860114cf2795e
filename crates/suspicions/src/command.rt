// What a line asks for.

// A call of the detectors, or the rows of the patient one.
#[derive(Clone, Copy, PartialEq, Eq)]
pub(super) enum Command {
    New { stations: usize, patience: usize },
    Raise { suspecting: usize, suspected: usize },
    Clear { suspecting: usize, suspected: usize },
    Crash { station: usize },
    Pass,
    Show,
}

// A number that is missing or does not read is 0, and a word that is none of these shows.
impl From<&str> for Command {
    fn from(line: &str) -> Command {
        let mut fields = line.split(' ');
        let word = fields.next().unwrap_or("");
        let mut numbers = fields.map(|field| field.parse().unwrap_or(0));
        let first = numbers.next().unwrap_or(0);
        let second = numbers.next().unwrap_or(0);
        match word {
            "new" => Command::New {
                stations: first,
                patience: second,
            },
            "raise" => Command::Raise {
                suspecting: first,
                suspected: second,
            },
            "clear" => Command::Clear {
                suspecting: first,
                suspected: second,
            },
            "crash" => Command::Crash { station: first },
            "pass" => Command::Pass,
            _ => Command::Show,
        }
    }
}
