// The calls of a run, each on the desk of a session.
ghost use Rattle.run.specs.Numbers.{gathered, numbers};
ghost use Rattle.std.specs.Prelude.{IfOk};
ghost use Rattle.schedule.specs.Calls.{Consults, Crashes, Delivers, Opens, Passes, Proposes, Starts};
ghost use Rattle.schedule.specs.States.{gathering_on, held, outcome, running_on, state, state_after};

use super::desk::Desk;
use super::refusal::LineRefusal;
use super::session::Session;
use detector::{FailureDetector, PatientDetector};
use run::{Gathering, Refusal, Running};
use std::alloc::{AllocError, Global};
use value::Number;

// A run of `n` stations with its tables and a detector of this patience.
pub(super) fn open(
    heap: Global,
    n: u64,
    patience: u64,
) -> Result<Result<Session, LineRefusal>, AllocError>
    ensures { IfOk result (λ r. Opens n patience (outcome r) (state_after r)) }
{
    let Ok(detector) = PatientDetector::new(n as usize, patience as usize) else {
        return Ok(Err(LineRefusal::Run(Refusal::Stations)));
    };
    let mut desk = Desk::new(heap, n as usize, detector)?;
    // No `map` and `map_err`: the desk then goes into a closure, and the check found no proof of `returns`.
    match Gathering::open(
        n as usize,
        &mut desk.stations,
        &mut desk.bytes,
        &desk.detector,
    ) {
        Ok(gathering) => Ok(Ok(Session::Gathering(gathering, desk))),
        Err(refusal) => Ok(Err(LineRefusal::Run(refusal))),
    }
}

// The run starts, or goes on gathering.
pub(super) fn start(gathering: Gathering, mut desk: Desk) -> (Session, Result<(), LineRefusal>)
    ensures { Starts (gathered gathering) (held desk) result.1 (state result.0) }
{
    // No `map` and `map_err`: either case takes the desk, and only one closure could.
    match gathering.start(&mut desk.stations, &mut desk.bytes, &desk.detector) {
        Ok(running) => (Session::Running(running, desk), Ok(())),
        Err((gathering, refusal)) => (
            Session::Gathering(gathering, desk),
            Err(LineRefusal::Run(refusal)),
        ),
    }
}

impl Desk {
    // Station `i` proposes a number.
    pub(super) fn propose(
        &mut self,
        gathering: &Gathering,
        i: u64,
        number: Number,
    ) -> Result<(), LineRefusal>
        ensures { Proposes (gathered gathering.now) (held self.old) i number.value result (gathering_on gathering.now self.new) }
    {
        gathering.propose(
            &mut self.stations,
            &self.bytes,
            &self.detector,
            i as usize,
            number,
        )?;
        Ok(())
    }

    // The message at place `k` is delivered.
    pub(super) fn deliver(&mut self, running: &mut Running, k: u64) -> Result<(), LineRefusal>
        ensures { Delivers (numbers running.old) (held self.old) k result (running_on running.new self.new) }
    {
        running.deliver(
            &mut self.stations,
            &mut self.bytes,
            &self.detector,
            k as usize,
        )?;
        Ok(())
    }

    // Station `i` is consulted.
    pub(super) fn consult(&mut self, running: &mut Running, i: u64) -> Result<(), LineRefusal>
        ensures { Consults (numbers running.old) (held self.old) i result (running_on running.new self.new) }
    {
        running.consult(
            &mut self.stations,
            &mut self.bytes,
            &self.detector,
            i as usize,
        )?;
        Ok(())
    }

    // Station `i` crashes.
    pub(super) fn crash(&mut self, running: &Running, i: u64) -> Result<(), LineRefusal>
        ensures { Crashes (numbers running.now) (held self.old) i result (running_on running.now self.new) }
    {
        running.crash(
            &mut self.stations,
            &self.bytes,
            &mut self.detector,
            i as usize,
        )?;
        Ok(())
    }

    // The failure detector passes.
    pub(super) fn pass(&mut self, running: &Running) -> Result<(), LineRefusal>
        ensures { Passes (numbers running.now) (held self.old) result (running_on running.now self.new) }
    {
        running.pass(&self.stations, &self.bytes, &mut self.detector)?;
        Ok(())
    }
}
