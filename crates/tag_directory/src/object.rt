//! A directory as a cell.

use crate::directory::{Claimed, Directory};
use crate::fault::ClaimFault;
use wedge_base::NoMemory;
use wedge_events::{DirectoryAsk, DirectoryReply, Object};

impl Object for Directory {
    ghost use Rattle.std.specs.Prelude.{◌≡◌, Ok, IfOk, OnErr};
    ghost use Rattle.wedge_events.specs.Directories.{directory_reply, directory_next, DirectoryFits};
    ghost use Rattle.tag_directory.specs.Openings.{directory_opening};

    type Ask = DirectoryAsk;

    type Reply = DirectoryReply;

    ghost reply = { directory_reply };

    ghost next = { directory_next };

    ghost opening = { directory_opening };

    ghost fits = { λ _ d q. DirectoryFits d q };

    fn act(&mut self, ask: &DirectoryAsk) -> Result<(DirectoryReply, DirectoryReply), NoMemory>
        ensures first { IfOk result (λ r. r.0 ≡ directory_reply self.old ask.now) }
        ensures second { IfOk result (λ r. r.1 ≡ directory_reply self.old ask.now) }
        ensures after { IfOk result (λ r. self.new ≡ directory_next self.old ask.now) }
        ensures err { OnErr result (self.new ≡ self.old) }
    {
        let reply = self.act_once(ask)?;
        Ok((reply, reply))
    }

    fn act_once(&mut self, ask: &DirectoryAsk) -> Result<DirectoryReply, NoMemory>
        ensures is { IfOk result (λ r. r ≡ directory_reply self.old ask.now) }
        ensures after { IfOk result (λ r. self.new ≡ directory_next self.old ask.now) }
        ensures err { OnErr result (self.new ≡ self.old) }
    {
        match *ask {
            DirectoryAsk::Claim => match self.claim() {
                Ok(Claimed { place, number }) => Ok(DirectoryReply::Claimed { place, number }),
                Err(ClaimFault::Full) => Ok(DirectoryReply::Full),
                Err(ClaimFault::NoMemory) => Err(NoMemory),
            },
            DirectoryAsk::Release { place } => {
                if self.is_claimed(place) {
                    self.release(place);
                }
                Ok(DirectoryReply::Released)
            }
        }
    }

    fn copy_ask(ask: &DirectoryAsk) -> Result<DirectoryAsk, NoMemory>
        ensures { result ≡ Ok ask.now }
    {
        Ok(*ask)
    }
}
