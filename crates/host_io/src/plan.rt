//! Which calls of a device in memory are to fail.

ghost use Rattle.std.specs.Prelude.{◌≡◌, ◌+◌, min};
ghost use Rattle.host_io.specs.Memory.{is_due, last_call};

/// The calls that are to fail, by their numbers from 1, and how many calls there have been.
#[derive(Debug, Drop)]
pub struct Plan {
    fails: Vec<u64>,
    calls: u64,
}

impl Plan {
    /// A plan before the first call.
    pub fn new(fails: Vec<u64>) -> Plan
        ensures fails { result.fails ≡ fails }
        ensures calls { result.calls ≡ 0 }
    {
        Plan { fails, calls: 0 }
    }

    /// Counts a call, and answers whether it is to fail. There are 2^64 - 1 numbers for calls: those after
    /// that are not counted, and none of them is to fail.
    pub fn is_refused(&mut self) -> bool
        ensures due { result ≡ is_due self.old.fails.items self.old.calls }
        ensures calls { self.new.calls ≡ min (self.old.calls + 1) last_call }
        ensures fails { self.new.fails ≡ self.old.fails }
    {
        match self.calls.checked_add(1) {
            None => false,
            Some(number) => {
                self.calls = number;
                self.fails.contains(&number)
            }
        }
    }
}
