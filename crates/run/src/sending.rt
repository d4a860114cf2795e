// What a station sends, in the table of bytes and in the counts.
ghost use Rattle.std.specs.Prelude.{◌≡◌, length};
ghost use Rattle.run.specs.Posting.{Postable, posted, posted_bytes};
ghost use Rattle.run.specs.Numbers.{numbers};

use super::running::Running;
use station::Broadcast;
use table::append;
use value::Value;

impl Running {
    // Appends what a station sends.
    #[tactic(auto, using(crate::proofs::Counts::limit_small))]
    pub(super) fn post<V: Value>(
        &mut self,
        bytes: &mut [u8],
        sender: u8,
        sent: Option<Broadcast<V>>,
    )
        requires { Postable V.Value (numbers self.old) (length bytes.old) sender sent }
        ensures run { numbers self.new ≡ posted (numbers self.old) sent }
        ensures bytes { bytes.new ≡ posted_bytes V.Value bytes.old (numbers self.old) sender sent }
    {
        if let Some(b) = sent {
            append(bytes, usize::from(self.waiting), self.n, sender, &b);
            self.waiting += u16::from(self.n);
            self.sent += u32::from(self.n);
        }
    }
}
