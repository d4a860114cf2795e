// Two detectors that are told the same.
use crate::command::Command;
use detector::{DetectorError, Event, ExactDetector, PatientDetector, replay};

#[derive(Drop)]
pub(super) struct Pair {
    pub patient: PatientDetector,
    pub exact: ExactDetector,
}

impl Pair {
    pub fn new(stations: usize, patience: usize) -> Result<Pair, DetectorError> {
        Ok(Pair {
            patient: PatientDetector::new(stations, patience)?,
            exact: ExactDetector::new(stations)?,
        })
    }

    fn tell(&mut self, event: Event) {
        replay(&mut self.patient, &[event]);
        replay(&mut self.exact, &[event]);
    }

    // Makes the call of a command, which is data of a line: one match tells the calls apart. A refusal leaves
    // both detectors as they were.
    pub fn perform(&mut self, command: Command) -> Result<(), DetectorError> {
        match command {
            Command::New { stations, patience } => *self = Pair::new(stations, patience)?,
            Command::Raise {
                suspecting,
                suspected,
            } => self.patient.raise(suspecting, suspected)?,
            Command::Clear {
                suspecting,
                suspected,
            } => self.patient.clear(suspecting, suspected)?,
            Command::Crash { station } => self.tell(Event::Crash(station)),
            Command::Pass => self.tell(Event::Pass),
            // `run` prints the rows
            Command::Show => {}
        }
        Ok(())
    }
}
