//! The service calls: their names and their numbers.

ghost use Rattle.std.specs.Prelude.{◌≡◌};
ghost use Rattle.wedge_base.specs.Services as services;

/// A service call.
#[derive(Clone, Copy, Debug, PartialEq, Eq)]
pub enum Service {
    /// End the actor.
    Exit,
    /// Start an sthread.
    SthreadCreate,
    /// Wait for an sthread to end.
    SthreadJoin,
    /// Make a tag.
    TagNew,
    /// Delete a tag.
    TagDelete,
    /// Get memory of a tag.
    Smalloc,
    /// Free memory of a tag.
    Sfree,
    /// Begin a draft of rights.
    ScNew,
    /// Add a right on a tag to a draft.
    ScMemAdd,
    /// Add bits on a descriptor to a draft.
    ScFdAdd,
    /// Add a gate to a draft.
    ScCgateAdd,
    /// Set the user of a draft.
    ScUser,
    /// Set the root directory of a draft.
    ScRoot,
    /// Make a gate.
    CgateMake,
    /// Call a gate.
    Cgate,
    /// Read from a descriptor.
    FdRead,
    /// Append to a descriptor.
    FdAppend,
    /// Close a descriptor.
    FdClose,
    /// Open a file.
    FileOpen,
}

/// Every service call, by its number.
pub const SERVICES: [Service; 19] = [
    Service::Exit,
    Service::SthreadCreate,
    Service::SthreadJoin,
    Service::TagNew,
    Service::TagDelete,
    Service::Smalloc,
    Service::Sfree,
    Service::ScNew,
    Service::ScMemAdd,
    Service::ScFdAdd,
    Service::ScCgateAdd,
    Service::ScUser,
    Service::ScRoot,
    Service::CgateMake,
    Service::Cgate,
    Service::FdRead,
    Service::FdAppend,
    Service::FdClose,
    Service::FileOpen,
];

impl Service {
    /// Its name in an assembler text.
    pub fn name(self) -> &'static str
        ensures { result.now ≡ services.service_name self }
    {
        match self {
            Service::Exit => "exit",
            Service::SthreadCreate => "sthread_create",
            Service::SthreadJoin => "sthread_join",
            Service::TagNew => "tag_new",
            Service::TagDelete => "tag_delete",
            Service::Smalloc => "smalloc",
            Service::Sfree => "sfree",
            Service::ScNew => "sc_new",
            Service::ScMemAdd => "sc_mem_add",
            Service::ScFdAdd => "sc_fd_add",
            Service::ScCgateAdd => "sc_cgate_add",
            Service::ScUser => "sc_user",
            Service::ScRoot => "sc_root",
            Service::CgateMake => "cgate_make",
            Service::Cgate => "cgate",
            Service::FdRead => "fd_read",
            Service::FdAppend => "fd_append",
            Service::FdClose => "fd_close",
            Service::FileOpen => "file_open",
        }
    }

    /// Its number, which a program puts in register a7.
    #[inline(always)]
    pub fn number(self) -> u32
        ensures { result ≡ services.service_number self }
    {
        match self {
            Service::Exit => 0,
            Service::SthreadCreate => 1,
            Service::SthreadJoin => 2,
            Service::TagNew => 3,
            Service::TagDelete => 4,
            Service::Smalloc => 5,
            Service::Sfree => 6,
            Service::ScNew => 7,
            Service::ScMemAdd => 8,
            Service::ScFdAdd => 9,
            Service::ScCgateAdd => 10,
            Service::ScUser => 11,
            Service::ScRoot => 12,
            Service::CgateMake => 13,
            Service::Cgate => 14,
            Service::FdRead => 15,
            Service::FdAppend => 16,
            Service::FdClose => 17,
            Service::FileOpen => 18,
        }
    }
}
