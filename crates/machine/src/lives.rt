//! The count of live sthreads.

use std::marker::Model;
use wedge_base::{MOST_LIVES, NoMemory};
use wedge_events::{LivesAsk, LivesReply, Object};

/// The cell that counts live sthreads, the root among them.
#[derive(Debug, Drop)]
pub struct Lives {
    count: u32,
}

impl Model for Lives {
    ghost use Rattle.std.specs.Prelude.{ℕ, ◌≤◌};
    ghost use Rattle.wedge_events.specs.Lives.{most_lives};

    ghost Value = { ℕ };

    ghost view = { λ l. l.count };

    ghost invariant = { λ l. l.count ≤ most_lives };
}

impl Lives {
    ghost use Rattle.std.specs.Prelude.{◌≡◌};
    ghost use Rattle.wedge_events.specs.Lives.{lives_opening, lives_reply, lives_next};

    /// As a run begins: the root alone.
    pub fn new() -> Lives
        ensures { result ≡ lives_opening }
    {
        Lives { count: 1 }
    }

    /// Answers an ask: a claim counts one sthread more, or is answered `Full`; a release counts one
    /// fewer.
    pub fn count(&mut self, ask: LivesAsk) -> LivesReply
        ensures reply { result ≡ lives_reply self.old ask }
        ensures after { self.new ≡ lives_next self.old ask }
    {
        match ask {
            LivesAsk::Claim if self.count < MOST_LIVES => {
                self.count += 1;
                LivesReply::Claimed
            }
            LivesAsk::Claim => LivesReply::Full,
            LivesAsk::Release { .. } => {
                self.count = self.count.saturating_sub(1);
                LivesReply::Released
            }
        }
    }
}

impl Object for Lives {
    ghost use Rattle.std.specs.Prelude.{◌≡◌, Ok, IfOk, OnErr};
    ghost use Rattle.wedge_events.specs.Lives.{lives_reply, lives_next, lives_opening};

    type Ask = LivesAsk;

    type Reply = LivesReply;

    ghost reply = { lives_reply };

    ghost next = { lives_next };

    ghost opening = { λ _ _. lives_opening };

    ghost fits = { λ _ _ _. Unit {0} };

    fn act(&mut self, ask: &LivesAsk) -> Result<(LivesReply, LivesReply), NoMemory>
        ensures first { IfOk result (λ r. r.0 ≡ lives_reply self.old ask.now) }
        ensures second { IfOk result (λ r. r.1 ≡ lives_reply self.old ask.now) }
        ensures after { IfOk result (λ r. self.new ≡ lives_next self.old ask.now) }
        ensures err { OnErr result (self.new ≡ self.old) }
    {
        let reply = self.count(*ask);
        Ok((reply, reply))
    }

    fn act_once(&mut self, ask: &LivesAsk) -> Result<LivesReply, NoMemory>
        ensures is { IfOk result (λ r. r ≡ lives_reply self.old ask.now) }
        ensures after { IfOk result (λ r. self.new ≡ lives_next self.old ask.now) }
        ensures err { OnErr result (self.new ≡ self.old) }
    {
        Ok(self.count(*ask))
    }

    fn copy_ask(ask: &LivesAsk) -> Result<LivesAsk, NoMemory>
        ensures { result ≡ Ok ask.now }
    {
        Ok(*ask)
    }
}
