// From the opening of a run to its start.
ghost use Rattle.std.specs.Prelude.{◌≡◌, ℕ, ◌*◌, ◌<◌, length, IfOk, MatchResult, OnOk};
ghost use Rattle.station.specs.Rule.{Sound};
ghost use Rattle.run.specs.Records.{station_at};
ghost use Rattle.run.specs.Gather.{Begun, Reset, all_formed, all_proposed, after_proposal, after_start, cleared, handed, opened, opening, propose_answer, start_planned, start_result};
ghost use Rattle.run.specs.Numbers.{gathered};
ghost use Rattle.run.specs.Ready.{Fitting, Starting};

use super::gathering::Gathering;
use super::limits::is_late;
use super::refusal::Refusal;
use super::running::Running;
use super::tables::Tables;
use detector::FailureDetector;
use station::{Station, Step};
use table::{clear, place_size};
use value::Value;

// The fewest and the most stations of a run, and the most places.
const FEWEST: usize = 3;

const MOST: usize = 32;

const MOST_PLACES: usize = 4096;

// Sets each record to that of its station as a run is opened.
fn reset<V: Value>(stations: &mut [Station<V>], n: u8)
    requires { length stations.old ≡ n }
    ensures { Reset n stations.new }
{
    for (i, s) in stations.iter_mut().enumerate() {
        *s = Station::new(i as u8, n);
    }
}

// Whether each record is one that a run of `n` stations can have before the start; by `zip`, so that no place
// has to be cast.
fn are_formed<V: Value>(stations: &[Station<V>], n: u8) -> bool
    requires { length stations.now ≡ n }
    ensures { result ≡ all_formed n stations.now }
{
    (0..n).zip(stations).all(|(i, s)| s.is_formed(i, n))
}

// Whether each station has proposed.
fn have_proposed<V: Value>(stations: &[Station<V>]) -> bool
    ensures { result ≡ all_proposed stations.now }
{
    stations.iter().all(|s| s.estimate.is_some())
}

// Each station begins round 0.
fn begin_all<V: Value>(stations: &mut [Station<V>])
    requires { (k : ℕ) → k < length stations.old → Sound (station_at stations.old k) }
    ensures { Begun stations.old stations.new }
{
    for s in stations.iter_mut() {
        s.begin_first();
    }
}

impl Gathering {
    // A run of `n` stations over these tables, if it may be opened; nothing is changed.
    fn over<V: Value>(n: usize, of_detector: usize, tables: Tables<V>) -> Result<Gathering, Refusal>
        ensures answer { opened result ≡ opening V.Value.WIDTH n of_detector (length tables.entry.stations.now) (length tables.entry.bytes.now) }
        ensures fit { IfOk result (λ run. Fitting V.Value run.n run.places tables.entry) }
    {
        // by comparisons: with `contains` of a range, goals of this test stay open
        if n < FEWEST || n > MOST || of_detector != n {
            return Err(Refusal::Stations);
        }
        if tables.stations.len() != n {
            return Err(Refusal::Tables);
        }
        let places = tables.bytes.len() / place_size::<V>();
        if places < n || places > MOST_PLACES {
            return Err(Refusal::Tables);
        }
        Ok(Gathering {
            n: n as u8,
            places: places as u16,
        })
    }

    // Opens a run over the tables of the caller. A refusal leaves them as they were.
    pub fn open<V: Value, D: FailureDetector>(
        n: usize,
        stations: &mut [Station<V>],
        bytes: &mut [u8],
        detector: &D,
    ) -> Result<Gathering, Refusal>
        ensures answer { opened result ≡ opening V.Value.WIDTH n (D.FailureDetector.stations detector.now) (length stations.old) (length bytes.old) }
        ensures stations { MatchResult result (λ g. Reset g.n stations.new) (λ _. stations.new ≡ stations.old) }
        ensures bytes { bytes.new ≡ cleared V.Value result bytes.old }
    {
        let run = Gathering::over(n, detector.stations(), Tables { stations, bytes })?;
        reset(stations, run.n);
        clear(bytes, 0, usize::from(run.places) * place_size::<V>());
        Ok(run)
    }

    // Whether station `i` may propose.
    #[tactic(auto, unfolding(crate::specs::Gather::propose_answer, crate::specs::Gather::record_formed))]
    fn check_proposal<V: Value>(&self, tables: Tables<V>, i: usize) -> Result<(), Refusal>
        ensures answer { result ≡ propose_answer V.Value (gathered self.now) tables.entry.stations.now (length tables.entry.bytes.now) i }
        ensures below { OnOk result (i < length tables.entry.stations.now) }
    {
        tables.check(self.n, self.places)?;
        let s = tables.record(i)?;
        if !s.is_formed(i as u8, self.n) {
            return Err(Refusal::Tables);
        }
        if s.estimate.is_some() {
            return Err(Refusal::Repeated);
        }
        Ok(())
    }

    // Station `i` proposes a value. A refusal leaves all as it was.
    pub fn propose<V: Value, D: FailureDetector>(
        &self,
        stations: &mut [Station<V>],
        bytes: &[u8],
        // not read: each call is handed both tables and the detector
        detector: &D,
        i: usize,
        value: V,
    ) -> Result<(), Refusal>
        ensures answer { result ≡ propose_answer V.Value (gathered self.now) stations.old (length bytes.now) i }
        ensures stations { stations.new ≡ after_proposal stations.old i value result }
    {
        self.check_proposal(Tables { stations, bytes }, i)?;
        stations[i] = stations[i].proposing(value);
        Ok(())
    }

    // What the coordinator of round 0 sends, if the run may start; nothing is changed.
    #[tactic(auto, unfolding(crate::specs::Gather::start_planned))]
    fn start_plan<V: Value>(&self, tables: Tables<V>) -> Result<Step<V>, Refusal>
        ensures answer { result ≡ start_planned V.Value (gathered self.now) tables.entry.stations.now (length tables.entry.bytes.now) }
        ensures ready { IfOk result (Starting V.Value (gathered self.now) tables.entry) }
    {
        tables.check(self.n, self.places)?;
        if !are_formed(tables.stations, self.n) {
            return Err(Refusal::Tables);
        }
        if !have_proposed(tables.stations) {
            return Err(Refusal::Missing);
        }
        let mut first = tables.stations[0];
        let step = first.begin_first();
        if is_late(step.sent) {
            return Err(Refusal::Stamp);
        }
        Ok(step)
    }

    // Begins round 0 at every station. A refusal hands the gathering back, and leaves all as it was.
    pub fn start<V: Value, D: FailureDetector>(
        self,
        stations: &mut [Station<V>],
        bytes: &mut [u8],
        // not read: each call is handed both tables and the detector
        detector: &D,
    ) -> Result<Running, (Gathering, Refusal)>
        ensures answer { handed result ≡ start_result V.Value (gathered self) stations.old (length bytes.old) }
        ensures stations { MatchResult result (λ _. Begun stations.old stations.new) (λ _. stations.new ≡ stations.old) }
        ensures bytes { bytes.new ≡ after_start V.Value (gathered self) stations.old bytes.old result }
    {
        // by `match`: a `map_err` would move `self` where there is no refusal too
        let step = match self.start_plan(Tables { stations, bytes }) {
            Ok(step) => step,
            Err(refusal) => return Err((self, refusal)),
        };
        let Gathering { n, places } = self;
        begin_all(stations);
        let mut running = Running {
            n,
            places,
            waiting: 0,
            sent: 0,
            delivered: 0,
            lost: 0,
        };
        running.post(bytes, 0, step.sent);
        Ok(running)
    }
}
