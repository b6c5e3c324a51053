//! Which grants permit all of some accesses.

ghost use Rattle.std.specs.Prelude.{◌≡◌, []};
ghost use Rattle.cb_analyze.specs.Fitting as fitting;

use crate::grants::ItemGrant;
use trace_form::{Kind, Mode};
use wedge_base::{FdBits, Right};

const READ: FdBits = FdBits {
    read: true,
    append: false,
};

const APPEND: FdBits = FdBits {
    read: false,
    append: true,
};

const BOTH: FdBits = FdBits {
    read: true,
    append: true,
};

/// Which grants permit all the accesses so far.
#[derive(Clone, Copy, Debug, PartialEq, Eq)]
pub(crate) struct Fitting {
    pub cow: bool,
    pub read: bool,
    pub read_write: bool,
    pub fd_read: bool,
    pub fd_append: bool,
    pub fd_both: bool,
    pub gate: bool,
}

impl Fitting {
    /// All of them, as there are no accesses yet.
    pub fn all() -> Fitting
        ensures { result ≡ fitting.fitting_of [] }
    {
        Fitting {
            cow: true,
            read: true,
            read_write: true,
            fd_read: true,
            fd_append: true,
            fd_both: true,
            gate: true,
        }
    }

    /// Those that permit one access more.
    pub fn with(self, kind: Kind, mode: Mode) -> Fitting
        ensures { result ≡ fitting.with_use self kind mode }
    {
        Fitting {
            cow: self.cow && ItemGrant::Tag(Right::Cow).permits(kind, mode),
            read: self.read && ItemGrant::Tag(Right::Read).permits(kind, mode),
            read_write: self.read_write && ItemGrant::Tag(Right::ReadWrite).permits(kind, mode),
            fd_read: self.fd_read && ItemGrant::Fd(READ).permits(kind, mode),
            fd_append: self.fd_append && ItemGrant::Fd(APPEND).permits(kind, mode),
            fd_both: self.fd_both && ItemGrant::Fd(BOTH).permits(kind, mode),
            gate: self.gate && ItemGrant::Gate.permits(kind, mode),
        }
    }

    /// The lowest of them, or none where no one grant permits all the accesses.
    pub fn lowest(self) -> Option<ItemGrant>
        ensures { result ≡ fitting.lowest_fitting self }
    {
        if self.cow {
            Some(ItemGrant::Tag(Right::Cow))
        } else if self.read {
            Some(ItemGrant::Tag(Right::Read))
        } else if self.read_write {
            Some(ItemGrant::Tag(Right::ReadWrite))
        } else if self.fd_read {
            Some(ItemGrant::Fd(READ))
        } else if self.fd_append {
            Some(ItemGrant::Fd(APPEND))
        } else if self.fd_both {
            Some(ItemGrant::Fd(BOTH))
        } else if self.gate {
            Some(ItemGrant::Gate)
        } else {
            None
        }
    }
}
