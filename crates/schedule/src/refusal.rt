// Why a line did nothing.
ghost use Rattle.std.specs.Prelude.{◌≡◌};
ghost use Rattle.schedule.specs.Refusals.{line_number, of_run};

use run::Refusal;

// Not an Option: number 15 is this crate's own, and None would not say why.
#[derive(Clone, Copy, Debug, PartialEq, Eq)]
pub enum LineRefusal {
    // the run refused the call
    Run(Refusal),
    // the line does not read, or its call is not one of the session's state
    Line,
}

impl From<Refusal> for LineRefusal {
    ghost from_gives = { λ e x. x ≡ of_run e };

    fn from(refusal: Refusal) -> LineRefusal {
        LineRefusal::Run(refusal)
    }
}

// The number of the refusal.
impl From<LineRefusal> for u8 {
    ghost from_gives = { λ x n. n ≡ line_number x };

    fn from(refusal: LineRefusal) -> u8 {
        match refusal {
            LineRefusal::Run(refusal) => u8::from(refusal),
            LineRefusal::Line => 15,
        }
    }
}
