// Deliveries.
ghost use Rattle.std.specs.Prelude.{◌≡◌, ◌-◌, ◌*◌, ◌<◌, ◌≤◌, length, IfOk, OnOk};
ghost use Rattle.message.specs.Format.{head_of};
ghost use Rattle.table.specs.Places.{taken_out};
ghost use Rattle.station.specs.Rule.{Sound};
ghost use Rattle.run.specs.After.{after};
ghost use Rattle.run.specs.Deliver.{beside, delivered, emptied, planned, planned_for, tried};
ghost use Rattle.run.specs.Incoming.{Ranges};
ghost use Rattle.run.specs.Numbers.{numbers};
ghost use Rattle.run.specs.Ready.{Fitting, Ready};

use super::incoming::incoming;
use super::plan::Plan;
use super::refusal::Refusal;
use super::running::Running;
use super::tables::Tables;
use detector::FailureDetector;
use message::Message;
use station::{Broadcast, Outcome, Station, Step};
use table::{place_size, read_place, take_out};
use value::Value;

// What a message makes of a station; one that crashed takes nothing.
#[tactic(auto, unfolding(crate::specs::Deliver::tried))]
fn try_take<V: Value>(station: &mut Station<V>, m: &Broadcast<V>) -> Result<Step<V>, Refusal>
    requires sound { Sound station.old }
    requires stamp { m.now.stamp ≤ 6000000 }
    ensures { beside station.new result ≡ tried station.old m.now }
{
    if station.crashed {
        return Ok(Step::quiet(Outcome::Nothing));
    }
    Ok(station.take(m)?)
}

impl Running {
    // What the delivery of a message comes to; nothing is changed.
    #[tactic(auto, unfolding(crate::specs::Deliver::planned_for))]
    fn plan_for<V: Value>(&self, tables: Tables<V>, m: &Message<V>) -> Result<Plan<V>, Refusal>
        requires fit { Fitting V.Value self.now.n self.now.places tables }
        requires waits { 0 < self.now.waiting }
        requires ranges { Ranges (head_of m.now) }
        ensures answer { result ≡ planned_for (numbers self.now) tables.entry.stations.now m.now }
        ensures ready { IfOk result (Ready V.Value (emptied (numbers self.now)) tables.entry) }
    {
        let to = m.head().receiver as usize;
        if !self.has_sound(tables.stations, to) {
            return Err(Refusal::Tables);
        }
        let message = incoming(m, self.n)?;
        let mut station = tables.stations[to];
        let step = try_take(&mut station, &message)?;
        self.admit(self.waiting - 1, &station, &step)?;
        Ok(Plan { to, station, step })
    }

    // What the delivery from place `k` comes to; nothing is changed.
    #[tactic(auto, using(crate::proofs::Within::understood_ranges), unfolding(crate::specs::Deliver::planned))]
    fn plan<V: Value>(&self, tables: Tables<V>, k: usize) -> Result<Plan<V>, Refusal>
        ensures answer { result ≡ planned V.Value (numbers self.now) tables.entry.stations.now tables.entry.bytes.now k }
        ensures waits { OnOk result (k < self.now.waiting) }
        ensures ready { IfOk result (Ready V.Value (emptied (numbers self.now)) tables.entry) }
    {
        tables.check(self.n, self.places)?;
        if k >= usize::from(self.waiting) {
            return Err(Refusal::Place);
        }
        let m = read_place::<V>(tables.bytes, k)?;
        self.plan_for(tables, &m)
    }

    // Takes a message out as delivered.
    fn remove(&mut self, bytes: &mut [u8], size: usize, k: usize)
        requires waits { k < self.old.waiting }
        requires room { self.old.places * size ≤ length bytes.old }
        ensures run { numbers self.new ≡ emptied (numbers self.old) }
        ensures bytes { bytes.new ≡ taken_out bytes.old size k (self.old.waiting - 1) }
    {
        take_out(bytes, size, k, usize::from(self.waiting));
        self.waiting -= 1;
        self.delivered += 1;
    }

    // Takes the message at place `k` out, and hands it to its receiver. A refusal leaves all as it was.
    pub fn deliver<V: Value, D: FailureDetector>(
        &mut self,
        stations: &mut [Station<V>],
        bytes: &mut [u8],
        // not read: each call is handed both tables and the detector
        detector: &D,
        k: usize,
    ) -> Result<Outcome, Refusal>
        ensures { after (numbers self.new) stations.new bytes.new result ≡ delivered V.Value (numbers self.old) stations.old bytes.old k }
    {
        let Plan { to, station, step } = self.plan(Tables { stations, bytes }, k)?;
        stations[to] = station;
        self.remove(bytes, place_size::<V>(), k);
        self.post(bytes, to as u8, step.sent);
        Ok(step.outcome)
    }
}
