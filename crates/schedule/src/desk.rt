// What a run is handed with each call.
ghost use Rattle.std.specs.Prelude.{◌≡◌, IfOk, vec_len};
ghost use Rattle.schedule.specs.Tables.{Blank};

use detector::PatientDetector;
use station::Station;
use std::alloc::{AllocError, Global};
use value::Number;

// 600 places, each of 24 bytes and those of a number.
const TABLE: usize = 600 * 32;

// The tables and the failure detector of a run. The tables are on the heap; a program of one size has them in arrays.
#[derive(Drop)]
pub struct Desk {
    pub stations: Vec<Station<Number>>,
    pub bytes: Vec<u8>,
    pub detector: PatientDetector,
}

impl Desk {
    // A record for each of `n` stations, to be filled in by the opening of a run, and an empty byte table.
    pub(super) fn new(heap: Global, n: usize, detector: PatientDetector) -> Result<Desk, AllocError>
        ensures stations { IfOk result (λ d. vec_len d.stations ≡ n) }
        ensures bytes { IfOk result (λ d. Blank 19200 d.bytes.items) }
        ensures detector { IfOk result (λ d. d.detector ≡ detector) }
    {
        Ok(Desk {
            stations: vec![in heap; Station::new(0, 0); n]?,
            bytes: vec![in heap; 0u8; TABLE]?,
            detector,
        })
    }
}
