// A run over graded maps with the exact failure detector: the first coordinator crashes, and the others settle on a map.
#![tactic(auto)]

mod words;

use anyhow::Context;
use detector::ExactDetector;
use run::{Closed, Gathering, Refusal, Running};
use station::{Outcome, Station};
use std::io;
use value::GradedMap;
use words::{Counts, Decision};

// 64 places, each of 24 bytes and those of a graded map.
const TABLE: usize = 64 * 36;

// The tables and the failure detector of a run of three stations. Its tables are arrays; a schedule has them on the heap.
#[derive(Drop)]
struct Desk {
    stations: [Station<GradedMap>; 3],
    bytes: [u8; TABLE],
    detector: ExactDetector,
}

// What each station has read.
const READ: [GradedMap; 3] = [
    GradedMap {
        map: 7,
        grade: -250,
        verso: false,
    },
    GradedMap {
        map: 7,
        grade: 1000,
        verso: true,
    },
    GradedMap {
        map: 9,
        grade: -1000,
        verso: false,
    },
];

impl Desk {
    fn new(detector: ExactDetector) -> Desk {
        Desk {
            stations: [Station::new(0, 0); 3],
            bytes: [0; TABLE],
            detector,
        }
    }

    // Opens and starts a run in which each station proposes what it has read.
    fn begin(&mut self) -> Result<Running, Refusal> {
        let gathering = Gathering::open(3, &mut self.stations, &mut self.bytes, &self.detector)?;
        for (i, map) in READ.into_iter().enumerate() {
            gathering.propose(&mut self.stations, &self.bytes, &self.detector, i, map)?;
        }
        gathering
            .start(&mut self.stations, &mut self.bytes, &self.detector)
            .map_err(|(_, refusal)| refusal)
    }

    fn deliver(&mut self, running: &mut Running, place: usize) -> Result<Outcome, Refusal> {
        running.deliver(&mut self.stations, &mut self.bytes, &self.detector, place)
    }

    // Delivers, in turn, what stands at place 0 or, where that is early, at the last place.
    fn deliver_all(&mut self, running: &mut Running) {
        // a count of turns, more than this run needs: no measure shows that messages cease to wait
        for _ in 0..200 {
            if self.deliver(running, 0).is_err() {
                let last = usize::from(running.waiting().saturating_sub(1));
                // a refusal here leaves all as it was, and is the end of this turn
                let _ = self.deliver(running, last);
            }
        }
    }

    // The coordinator of round 0 crashes after its start, both others say that they suspect it, and all is delivered.
    fn perform(&mut self) -> Result<Closed, Refusal> {
        let mut running = self.begin()?;
        running.crash(&mut self.stations, &self.bytes, &mut self.detector, 0)?;
        for other in [1, 2] {
            running.consult(&mut self.stations, &mut self.bytes, &self.detector, other)?;
        }
        self.deliver_all(&mut running);
        Ok(running.close())
    }
}

// Prints the counts of a run, and what each station has decided: a line each, of words that are `Display`.
fn show(rt: &impl Print, closed: Closed, stations: &[Station<GradedMap>]) -> io::Result<()> {
    println!(rt; "{}", Counts(closed))?;
    for (i, station) in stations.iter().enumerate() {
        println!(rt;
            "station {i}, round {}: {}",
            station.round,
            Decision(station.decision)
        )?;
    }
    Ok(())
}

fn settle(rt: &impl Print) -> anyhow::Result<()> {
    let mut desk = Desk::new(ExactDetector::new(3)?);
    let closed = desk.perform().context("a call was refused")?;
    show(rt, closed, &desk.stations)?;
    Ok(())
}

fn main(rt: HostRuntime) -> anyhow::Result<()> {
    settle(&rt)
}
