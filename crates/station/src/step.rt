// The rules by which a live station takes a message.
ghost use Rattle.std.specs.Prelude.{◌≡◌, ◌<◌, ◌≤◌, true};
ghost use Rattle.station.specs.Rule.{Sound, consult_rule, coordinator, formed, fresh, proposing, quiet, sound, started, take_rule};

use super::broadcast::{Broadcast, Content};
use super::state::{Phase, Station};
use super::turn::Turn;
use std::cmp::Ordering;
use value::Value;

// The last round, and the highest stamp, that a record may have: those of a message, which this crate does not know.
pub const MAX_ROUND: u16 = 60_000;

pub const MAX_STAMP: u32 = 6_000_000;

// What a message came to, by the number that a delivery answers.
#[derive(Clone, Copy, Debug, PartialEq, Eq)]
pub enum Outcome {
    Nothing = 0,
    Counted = 1,
    EnteredSecond = 2,
    BeganRound = 3,
    Decided = 4,
}

// What a step gives out beside the record that it leaves.
#[derive(Clone, Copy, Debug, PartialEq, Eq)]
pub struct Step<V> {
    pub sent: Option<Broadcast<V>>,
    pub outcome: Outcome,
}

// Why a station takes no step, by the number of the refusal: the message is of a later round.
#[derive(Clone, Copy, Debug, PartialEq, Eq)]
pub enum Refused {
    Early = 8,
}

impl<V: Value> Step<V> {
    // A step that gives out nothing.
    pub fn quiet(outcome: Outcome) -> Step<V>
        ensures { result ≡ quiet outcome }
    {
        Step {
            sent: None,
            outcome,
        }
    }
}

// Each step asks that the record is `Sound`: the type cannot say it, since its owner may change any field.
impl<V: Value> Station<V> {
    // The coordinator of the station's round.
    pub fn coordinator(&self) -> u8
        requires { Sound self.now }
        ensures { result ≡ coordinator self.now }
    {
        (self.round % u16::from(self.n)) as u8
    }

    // The record of station `number` of `n` as a run is opened.
    pub fn new(number: u8, n: u8) -> Station<V>
        ensures { result ≡ fresh n number }
    {
        Station {
            number,
            n,
            round: 0,
            phase: Phase::First,
            estimate: None,
            origin: number,
            mark: false,
            heard: 0,
            doubts: 0,
            stamp: 0,
            sent: 0,
            decision: None,
            crashed: false,
        }
    }

    // The record with this proposal.
    pub fn proposing(self, value: V) -> Station<V>
        ensures { result ≡ proposing self value }
    {
        Station {
            estimate: Some(value),
            ..self
        }
    }

    // Whether this can be the record of station `number` in a run of `n` stations that has not started: its
    // counts, its round and its stamp are no higher than such a run lets them be.
    pub fn is_formed(&self, number: u8, n: u8) -> bool
        ensures { result ≡ formed n number self.now }
    {
        // what a station can have sent by the end of its round
        let sendable = u32::from(n) * (3 * u32::from(self.round) + 4);
        self.number == number
            && self.n == n
            && self.origin < n
            && self.round <= MAX_ROUND
            && self.stamp <= MAX_STAMP
            && self.heard <= n
            && self.doubts <= n
            && self.sent <= sendable
    }

    // The same for a run that has started: there the record has an estimate too.
    #[tactic(auto, using(crate::proofs::Sound::sound_true))]
    pub fn fits(&self, number: u8, n: u8) -> bool
        requires { (3 ≤ n) × ((n ≤ 32) × (number < n)) }
        ensures value { result ≡ sound n number self.now }
        ensures holds { result ≡ true → Sound self.now }
    {
        self.is_formed(number, n) && self.estimate.is_some()
    }

    // Begins round 0.
    pub fn begin_first(&mut self) -> Step<V>
        requires { Sound self.old }
        ensures record { self.new ≡ (started self.old).0 }
        ensures answer { result ≡ (started self.old).1 }
    {
        let turn = Turn { station: *self };
        let (next, step) = turn.begin(self.estimate, 0);
        *self = next;
        step
    }

    // A live station whose coordinator is suspected, or not, says so once in phase 1 of a round.
    pub fn consult(&mut self, suspected: bool) -> Step<V>
        requires { Sound self.old }
        ensures record { self.new ≡ (consult_rule self.old suspected).0 }
        ensures answer { result ≡ (consult_rule self.old suspected).1 }
    {
        let turn = Turn { station: *self };
        let (next, step) = turn.consult(suspected);
        *self = next;
        step
    }

    // A live station takes a message, by the first rule that fits: one `match`, so that it reads as the list of rules.
    #[tactic(auto, unfolding(crate::specs::Rule::counted_second))]
    pub fn take(&mut self, m: &Broadcast<V>) -> Result<Step<V>, Refused>
        requires { (Sound self.old) × (m.now.stamp ≤ 6000000) }
        ensures record { self.new ≡ (take_rule self.old m.now).0 }
        ensures answer { result ≡ (take_rule self.old m.now).1 }
    {
        let station = Station {
            stamp: self.stamp.max(m.stamp),
            ..*self
        };
        let turn = Turn { station };
        let (next, step) = match (
            self.decision.is_some(),
            self.phase,
            m.round.cmp(&self.round),
            m.content,
        ) {
            (true, _, _, _) => return Ok(Step::quiet(Outcome::Nothing)),
            (false, _, _, Content::Decision { value }) => turn.decide(value, m.round),
            (false, _, Ordering::Less, _) => return Ok(Step::quiet(Outcome::Nothing)),
            (false, _, Ordering::Greater, _) => return Err(Refused::Early),
            (false, Phase::First, Ordering::Equal, Content::First { origin, value })
                if self.heard == 0 => turn.adopt_first(origin, value),
            (false, Phase::First, Ordering::Equal, Content::First { .. }) => turn.count_first(),
            (false, Phase::First, Ordering::Equal, Content::Suspicion) => turn.count_suspicion(),
            (false, Phase::First, Ordering::Equal, Content::Second { origin, value }) =>
                turn.join_second(origin, value),
            (false, Phase::Second, Ordering::Equal, Content::Second { origin, value }) =>
                turn.count_second(origin, value),
            (false, Phase::Second, Ordering::Equal, _) => return Ok(Step::quiet(Outcome::Nothing)),
        };
        *self = next;
        Ok(step)
    }
}
