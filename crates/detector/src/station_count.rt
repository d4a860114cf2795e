ghost use Rattle.std.specs.Prelude.{◌≡◌, ◌≤◌, MatchResult};
ghost use Rattle.detector.specs.Answers.{RefusesStations, is_pair};

use crate::DetectorError;

const FEWEST_STATIONS: usize = 3;

pub(crate) const MOST_STATIONS: usize = 32;

// A number of stations that a detector can have.
#[derive(Clone, Copy)]
pub(crate) struct StationCount {
    count: usize,
    ghost few: { 3 ≤ count },
    ghost many: { count ≤ 32 },
}

impl TryFrom<usize> for StationCount {
    type Error = DetectorError;

    ghost try_from_gives = { λ count result. MatchResult result (λ stations. stations.count ≡ count) (RefusesStations count) };

    fn try_from(count: usize) -> Result<StationCount, DetectorError> {
        if (FEWEST_STATIONS..=MOST_STATIONS).contains(&count) {
            Ok(StationCount { count })
        } else {
            Err(DetectorError::Stations)
        }
    }
}

impl StationCount {
    pub(crate) fn count(self) -> usize
        ensures { result ≡ self.count }
    {
        self.count
    }

    // Whether i and j are two different stations.
    pub(crate) fn has_pair(self, i: usize, j: usize) -> bool
        ensures { result ≡ is_pair self.count i j }
    {
        i < self.count && j < self.count && i != j
    }
}
