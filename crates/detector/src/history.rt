// Histories of a failure detector: what its calls come to, whichever detector it is.
ghost use Rattle.detector.specs.Means.{means};
ghost use Rattle.detector.specs.History.{Call, Completeness, Performs};

use crate::FailureDetector;

// A call that is made of a failure detector, as a value: a list holds it, and the law of completeness
// speaks of such lists.
#[derive(Clone, Copy, Debug, PartialEq, Eq)]
pub enum Event {
    // the crash of this station is told
    Crash(usize),
    Pass,
}

fn make_call<D: FailureDetector>(detector: &mut D, event: Event)
    ensures { Call (means D.FailureDetector) event detector.old detector.new }
{
    match event {
        Event::Crash(j) => detector.crash(j),
        Event::Pass => detector.pass(),
    }
}

// Makes the calls in their order, and changes nothing besides. Whatever an owner changes around such
// calls: a fresh detector that is given as many passes as its patience after the last crash that is
// new to it has every crashed station suspected by every other.
pub fn replay<D: FailureDetector>(detector: &mut D, events: &[Event])
    ensures performs { Performs (means D.FailureDetector) detector.old events.now detector.new }
    ensures complete { Completeness (means D.FailureDetector) }
{
    for event in events {
        make_call(detector, *event);
    }
}
