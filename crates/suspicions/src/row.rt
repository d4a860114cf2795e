// Whom a station suspects, as a row of marks.
use detector::FailureDetector;
use std::fmt;

#[derive(Drop)]
pub(super) struct Row<'a, D> {
    pub detector: &'a D,
    pub suspecting: usize,
}

// An `x` for each station that is suspected, and a dot for each other one, handed on one by one, so that a row
// takes no memory on the heap.
impl<D: FailureDetector> fmt::Display for Row<'_, D> {
    fn fmt<W: fmt::Write>(&self, f: &mut fmt::Formatter<W>) -> fmt::Result {
        for j in 0..self.detector.stations() {
            f.write_str(if self.detector.suspects(self.suspecting, j) {
                "x"
            } else {
                "."
            })?;
        }
        Ok(())
    }
}
