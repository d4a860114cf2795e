// Makes calls of a patient and of an exact detector, as standard input says, and prints who suspects whom.
// A line is a word and two numbers: `new n patience`, `raise i j`, `clear i j`, `crash j 0`, `pass 0 0`, `show 0 0`.
// Each answers the number of its refusal or 0, and how many pairs each detector has; `show` prints the patient one's.
#![tactic(auto)]

mod command;
mod pair;
mod row;

use command::Command;
use detector::{DetectorError, FailureDetector};
use pair::Pair;
use row::Row;
use std::io;

// So many numbers are asked about, more than a detector has stations.
const ASKED: usize = 40;

// How many pairs a detector has, also among numbers that are no station's.
// Saturating, as the check does not find that a `sum` fits (`sum-requires-clause-fits` stays open).
fn count_pairs<D: FailureDetector>(detector: &D) -> usize {
    (0..ASKED)
        .map(|i| (0..ASKED).filter(|j| detector.suspects(i, *j)).count())
        .fold(0, usize::saturating_add)
}

// Prints a row for each station. Stations have numbers and no list, so this is a range of numbers.
fn show_pairs<D: FailureDetector>(rt: &impl Print, detector: &D) -> io::Result<()> {
    for suspecting in 0..detector.stations() {
        let row = Row {
            detector,
            suspecting,
        };
        println!(rt; "{row}")?;
    }
    Ok(())
}

// The number of a refusal, or 0. No `From`: neither a Result nor a number is a type of this program.
fn number_of(answer: Result<(), DetectorError>) -> u8 {
    answer.err().map_or(0, u8::from)
}

fn run(rt: &(impl Input + Print + AllocGlobal)) -> anyhow::Result<()> {
    let mut pair = Pair::new(3, 0)?;
    for line in rt.lines(rt.alloc()) {
        let line = line?;
        let command = Command::from(line.as_str());
        if command == Command::Show {
            show_pairs(rt, &pair.patient)?;
        }
        let refusal = number_of(pair.perform(command));
        let patient = count_pairs(&pair.patient);
        let exact = count_pairs(&pair.exact);
        println!(rt; "{refusal} {patient} {exact}")?;
    }
    Ok(())
}

fn main(rt: HostRuntime) -> anyhow::Result<()> {
    run(&rt)
}
