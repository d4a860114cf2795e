// Consultations of the failure detector.
ghost use Rattle.std.specs.Prelude.{◌≡◌, length, IfOk};
ghost use Rattle.run.specs.After.{after};
ghost use Rattle.run.specs.Consult.{consult_planned, consulted};
ghost use Rattle.run.specs.Numbers.{numbers};
ghost use Rattle.run.specs.Ready.{Ready};

use super::plan::Plan;
use super::refusal::Refusal;
use super::running::Running;
use super::tables::Tables;
use detector::FailureDetector;
use station::Station;
use value::Value;

impl Running {
    // What the consultation of station `i` comes to; nothing is changed.
    #[tactic(auto, unfolding(crate::specs::Consult::consult_planned))]
    fn consult_plan<V: Value, D: FailureDetector>(
        &self,
        tables: Tables<V>,
        detector: &D,
        i: usize,
    ) -> Result<Plan<V>, Refusal>
        ensures answer { result ≡ consult_planned V.Value (D.FailureDetector.suspected detector.now) (numbers self.now) tables.entry.stations.now (length tables.entry.bytes.now) i }
        ensures ready { IfOk result (Ready V.Value (numbers self.now) tables.entry) }
    {
        let mut station = self.named(tables, i)?;
        let suspected = detector.suspects(i, usize::from(station.coordinator()));
        let step = station.consult(suspected);
        self.admit(self.waiting, &station, &step)?;
        Ok(Plan {
            to: i,
            station,
            step,
        })
    }

    // Station `i` asks about its coordinator, and says whether it suspects it for the first time in this round.
    pub fn consult<V: Value, D: FailureDetector>(
        &mut self,
        stations: &mut [Station<V>],
        bytes: &mut [u8],
        detector: &D,
        i: usize,
    ) -> Result<bool, Refusal>
        ensures { after (numbers self.new) stations.new bytes.new result ≡ consulted V.Value (D.FailureDetector.suspected detector.now) (numbers self.old) stations.old bytes.old i }
    {
        let Plan { to, station, step } = self.consult_plan(
            Tables { stations, bytes },
            detector,
            i,
        )?;
        stations[to] = station;
        self.post(bytes, to as u8, step.sent);
        Ok(step.sent.is_some())
    }
}
