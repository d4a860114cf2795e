// The end of a run.
ghost use Rattle.std.specs.Prelude.{◌≡◌};
ghost use Rattle.run.specs.Numbers.{closed};

use super::closed::Closed;
use super::running::Running;

impl Running {
    // The messages that wait.
    pub fn waiting(&self) -> u16
        ensures { result ≡ self.now.waiting }
    {
        self.waiting
    }

    // Closing is never refused.
    pub fn close(self) -> Closed
        ensures { result ≡ closed self }
    {
        let Running {
            n,
            places: _,
            waiting,
            sent,
            delivered,
            lost,
        } = self;
        Closed {
            n,
            sent,
            waiting,
            delivered,
            lost,
        }
    }
}
