//! What every kind of cell has in common.

ghost use Rattle.std.specs.Prelude.{◌≡◌, IfOk, OnErr};
ghost use Rattle.wedge_base.specs.Images.{Image};
ghost use Rattle.wedge_events.specs.declared.events.CellName.{CellName as Name};

use wedge_base::NoMemory;

/// The state of a cell. An ask that fits the state gets a reply, and the state goes on; both are functions
/// of the state and the ask. An image says with which state the cell of a name begins.
pub trait Object: Drop {
    /// What the cell is asked.
    type Ask: Drop;
    /// What it replies.
    type Reply: Drop;

    // The reply to an ask in a state, and the state after it.
    ghost reply: { Self → Self.Ask → Self.Reply };

    ghost next: { Self → Self.Ask → Self };
    // The state with which the cell of a name begins in a run of an image.
    ghost opening: { Image → Name → Self };
    // Which asks fit a state in a run of an image.
    ghost fits: { Image → Self → Self.Ask → Type 0 };

    /// Does what is asked, and returns its reply in two equal copies: one for a history, one for who asked.
    /// It takes all its memory before it changes the state.
    fn act(&mut self, ask: &Self::Ask) -> Result<(Self::Reply, Self::Reply), NoMemory>
        requires { (image : Image) × fits image self.old ask.now }
        ensures first { IfOk result (λ r. r.0 ≡ reply self.old ask.now) }
        ensures second { IfOk result (λ r. r.1 ≡ reply self.old ask.now) }
        ensures after { IfOk result (λ r. self.new ≡ next self.old ask.now) }
        ensures err { OnErr result (self.new ≡ self.old) };

    /// Does what is asked, as `act` does, and returns its reply once.
    fn act_once(&mut self, ask: &Self::Ask) -> Result<Self::Reply, NoMemory>
        requires { (image : Image) × fits image self.old ask.now }
        ensures is { IfOk result (λ r. r ≡ reply self.old ask.now) }
        ensures after { IfOk result (λ r. self.new ≡ next self.old ask.now) }
        ensures err { OnErr result (self.new ≡ self.old) };

    /// An equal ask.
    fn copy_ask(ask: &Self::Ask) -> Result<Self::Ask, NoMemory>
        ensures { IfOk result (λ a. a ≡ ask.now) };
}
