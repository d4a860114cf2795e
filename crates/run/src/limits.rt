// The limits of a run, tested on what a step would leave and send.
ghost use Rattle.std.specs.Prelude.{◌≡◌, ◌≤◌, OnOk};
ghost use Rattle.run.specs.Admission.{admitted, late};
ghost use Rattle.run.specs.Numbers.{limit, numbers};
ghost use Rattle.run.specs.Ready.{Within};

use super::refusal::Refusal;
use super::running::Running;
use station::{Broadcast, MAX_ROUND, MAX_STAMP, Station, Step};
use value::Value;

// The most messages that one station sends to one station.
const PER_PAIR: u32 = 180_004;

// Whether a broadcast bears a stamp that is too high.
pub(super) fn is_late<V: Value>(sent: Option<Broadcast<V>>) -> bool
    ensures { result ≡ late sent }
{
    sent.is_some_and(|b| b.stamp > MAX_STAMP)
}

impl Running {
    // The most messages that the stations of the run may send.
    #[tactic(auto, using(crate::proofs::Counts::limit_small))]
    fn limit(&self) -> u32
        ensures { result ≡ limit (numbers self.now) }
    {
        let n = u32::from(self.n);
        n * n * PER_PAIR
    }

    // Whether a step may be made, by what it leaves and sends.
    #[tactic(auto, using(crate::proofs::Counts::limit_small), unfolding(crate::specs::Admission::admitted))]
    pub(super) fn admit<V: Value>(
        &self,
        waiting: u16,
        next: &Station<V>,
        step: &Step<V>,
    ) -> Result<(), Refusal>
        requires { waiting ≤ 4096 }
        ensures answer { result ≡ admitted (numbers self.now) waiting next.now step.now }
        ensures limits { OnOk result (Within (numbers self.now) waiting next.now.round step.now.sent) }
    {
        let sends = step.sent.is_some();
        if sends && self.sent + u32::from(self.n) > self.limit() {
            return Err(Refusal::Tables);
        }
        if next.round > MAX_ROUND {
            return Err(Refusal::Rounds);
        }
        if is_late(step.sent) {
            return Err(Refusal::Stamp);
        }
        if sends && waiting + u16::from(self.n) > self.places {
            return Err(Refusal::Full);
        }
        Ok(())
    }
}
