// A station's turn: what it makes of a message, of a suspicion, and of the start of a round.
ghost use Rattle.std.specs.Prelude.{◌≡◌, ◌+◌};
ghost use Rattle.station.specs.Rule.{Sound, adopted, began, consult_rule, counted_first, counted_second, counted_suspicion, decided, enough, joined_second, preferred, second_of, step_maybe_sending};

use super::broadcast::{Broadcast, Content};
use super::state::{Phase, Station};
use super::step::{Outcome, Step};
use value::Value;

// The record that a step begins with, at the stamp of the step. That it is sound is said of this record
// and not of the one that the step leaves, whose round may be past the last.
#[derive(Drop)]
pub(crate) struct Turn<V> {
    pub(crate) station: Station<V>,
    ghost sound: { Sound station },
}

impl<V: Value> Turn<V> {
    // Whether `count` stations are more than half of all.
    fn enough(&self, count: u8) -> bool
        ensures { result ≡ enough self.now.station count }
    {
        2 * u16::from(count) > u16::from(self.station.n)
    }

    // The record `next` with one broadcast more in its count, and the step that gives the broadcast out.
    fn sending(
        &self,
        next: Station<V>,
        round: u16,
        content: Option<Content<V>>,
        outcome: Outcome,
    ) -> (Station<V>, Step<V>)
        ensures record { result.0 ≡ record next { sent = self.now.station.sent + self.now.station.n } }
        ensures step { result.1 ≡ step_maybe_sending round (self.now.station.stamp + 1) content outcome }
    {
        let next = Station {
            sent: self.station.sent + u32::from(self.station.n),
            ..next
        };
        let stamp = self.station.stamp + 1;
        let sent = content.map(|content| Broadcast {
            round,
            stamp,
            content,
        });
        (next, Step { sent, outcome })
    }

    // A decision that was announced.
    pub(crate) fn decide(&self, value: V, round: u16) -> (Station<V>, Step<V>)
        ensures { result ≡ decided self.now.station self.now.station.stamp value round }
    {
        let next = Station {
            decision: Some(value),
            ..self.station
        };
        let content = Some(Content::Decision { value });
        self.sending(next, round, content, Outcome::Decided)
    }

    // The first estimate of this round: it is taken over, and passed on unless this is the coordinator.
    pub(crate) fn adopt_first(&self, origin: u8, value: V) -> (Station<V>, Step<V>)
        ensures { result ≡ adopted self.now.station self.now.station.stamp origin value }
    {
        let next = Station {
            heard: 1,
            estimate: Some(value),
            origin,
            ..self.station
        };
        if self.station.coordinator() == self.station.number {
            return (next, Step::quiet(Outcome::Counted));
        }
        let content = Some(Content::First { origin, value });
        self.sending(next, self.station.round, content, Outcome::Counted)
    }

    // A further first estimate: with enough of them the station decides its own.
    pub(crate) fn count_first(&self) -> (Station<V>, Step<V>)
        ensures { result ≡ counted_first self.now.station self.now.station.stamp }
    {
        let heard = self.station.heard + 1;
        let next = Station {
            heard,
            ..self.station
        };
        if !self.enough(heard) {
            return (next, Step::quiet(Outcome::Counted));
        }
        let estimate = self.station.estimate;
        let next = Station {
            decision: estimate,
            ..next
        };
        let content = estimate.map(|value| Content::Decision { value });
        self.sending(next, self.station.round, content, Outcome::Decided)
    }

    // The second estimate that this station sends as it enters phase 2.
    fn second_estimate(&self) -> Option<Content<V>>
        ensures { result ≡ second_of self.now.station }
    {
        let origin = self.station.origin;
        self.station
            .estimate
            .map(|value| Content::Second { origin, value })
    }

    // A suspicion: with enough of them the station enters phase 2.
    pub(crate) fn count_suspicion(&self) -> (Station<V>, Step<V>)
        ensures { result ≡ counted_suspicion self.now.station self.now.station.stamp }
    {
        let doubts = self.station.doubts + 1;
        let next = Station {
            doubts,
            ..self.station
        };
        if !self.enough(doubts) {
            return (next, Step::quiet(Outcome::Counted));
        }
        let next = Station {
            phase: Phase::Second,
            heard: 0,
            ..next
        };
        let content = self.second_estimate();
        self.sending(next, self.station.round, content, Outcome::EnteredSecond)
    }

    // The estimate and its origin after a second estimate: the coordinator's is taken over.
    fn preferred(&self, origin: u8, value: V) -> (Option<V>, u8)
        ensures { result ≡ preferred self.now.station origin value }
    {
        if self.station.coordinator() == origin {
            (Some(value), origin)
        } else {
            (self.station.estimate, self.station.origin)
        }
    }

    // A second estimate in phase 1: the station enters phase 2, sends its own, and then counts this one.
    pub(crate) fn join_second(&self, origin: u8, value: V) -> (Station<V>, Step<V>)
        ensures { result ≡ joined_second self.now.station self.now.station.stamp origin value }
    {
        let (estimate, origin) = self.preferred(origin, value);
        let next = Station {
            phase: Phase::Second,
            heard: 1,
            estimate,
            origin,
            ..self.station
        };
        let content = self.second_estimate();
        self.sending(next, self.station.round, content, Outcome::EnteredSecond)
    }

    // Begins a round, where the coordinator sends its estimate.
    pub(crate) fn begin(&self, estimate: Option<V>, round: u16) -> (Station<V>, Step<V>)
        ensures { result ≡ began self.now.station self.now.station.stamp estimate round }
    {
        let leads = round % u16::from(self.station.n) == u16::from(self.station.number);
        let next = Station {
            round,
            phase: Phase::First,
            estimate,
            origin: self.station.number,
            mark: false,
            heard: 0,
            doubts: 0,
            ..self.station
        };
        if !leads {
            return (next, Step::quiet(Outcome::BeganRound));
        }
        let origin = self.station.number;
        let content = estimate.map(|value| Content::First { origin, value });
        self.sending(next, round, content, Outcome::BeganRound)
    }

    // A second estimate in phase 2: with enough of them the next round begins.
    #[tactic(auto, unfolding(crate::specs::Rule::counted_second))]
    pub(crate) fn count_second(&self, origin: u8, value: V) -> (Station<V>, Step<V>)
        ensures { result ≡ counted_second self.now.station self.now.station.stamp origin value }
    {
        let heard = self.station.heard + 1;
        let (estimate, origin) = self.preferred(origin, value);
        if self.enough(heard) {
            let round = self.station.round + 1;
            return self.begin(estimate, round);
        }
        let next = Station {
            heard,
            estimate,
            origin,
            ..self.station
        };
        (next, Step::quiet(Outcome::Counted))
    }

    // The coordinator of this round is suspected, or not: the station says so once, in phase 1.
    pub(crate) fn consult(&self, suspected: bool) -> (Station<V>, Step<V>)
        ensures { result ≡ consult_rule self.now.station suspected }
    {
        let in_first = self.station.phase == Phase::First;
        let is_due = in_first && self.station.decision.is_none() && !self.station.mark && suspected;
        if !is_due {
            return (self.station, Step::quiet(Outcome::Nothing));
        }
        let next = Station {
            mark: true,
            ..self.station
        };
        let content = Some(Content::Suspicion);
        self.sending(next, self.station.round, content, Outcome::Counted)
    }
}
