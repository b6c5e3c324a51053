//! The keys of the tables of a partition.

ghost use Rattle.std.specs.Prelude.{◌≡◌};
ghost use Rattle.part_toml.specs.Keys as keys;

/// A table of a partition: the top table, or one of an array of that name.
#[derive(Clone, Copy, Debug, PartialEq, Eq)]
pub(crate) enum Part {
    Top,
    /// The top table of a partition that a program is joined to.
    Joined,
    Data,
    Tag,
    Fd,
    File,
}

/// A key of a table.
#[derive(Clone, Copy, Debug, PartialEq, Eq)]
pub(crate) enum Key {
    Fuel,
    User,
    Entry,
    Root,
    Base,
    Data,
    Tag,
    Fd,
    File,
    Name,
    Text,
    Hex,
    Pages,
    Right,
    Kind,
    Bits,
    Path,
    Owner,
    Mode,
}

/// What the value of a key must be.
#[derive(Clone, Copy, Debug, PartialEq, Eq)]
pub(crate) enum Kind {
    /// An integer that fits 32 bits.
    Number,
    /// A string.
    Text,
    /// Pairs of lower-case hexadecimal digits.
    Hex,
    /// The name of a right.
    Right,
    /// The name of a stream's kind.
    Stream,
    /// The name of the bits of a descriptor.
    Bits,
    /// An array of tables.
    Tables,
}

/// A key that a table may have.
#[derive(Clone, Copy, Debug, PartialEq, Eq)]
pub(crate) struct Field {
    pub key: Key,
    pub kind: Kind,
    /// Whether the key must be there.
    pub required: bool,
}

static TOP: [Field; 10] = [
    Field {
        key: Key::Fuel,
        kind: Kind::Number,
        required: true,
    },
    Field {
        key: Key::User,
        kind: Kind::Number,
        required: true,
    },
    Field {
        key: Key::Entry,
        kind: Kind::Text,
        required: true,
    },
    Field {
        key: Key::Root,
        kind: Kind::Text,
        required: true,
    },
    Field {
        key: Key::Text,
        kind: Kind::Text,
        required: true,
    },
    Field {
        key: Key::Base,
        kind: Kind::Number,
        required: false,
    },
    Field {
        key: Key::Data,
        kind: Kind::Tables,
        required: false,
    },
    Field {
        key: Key::Tag,
        kind: Kind::Tables,
        required: false,
    },
    Field {
        key: Key::Fd,
        kind: Kind::Tables,
        required: false,
    },
    Field {
        key: Key::File,
        kind: Kind::Tables,
        required: false,
    },
];

static JOINED: [Field; 6] = [
    Field {
        key: Key::Fuel,
        kind: Kind::Number,
        required: true,
    },
    Field {
        key: Key::User,
        kind: Kind::Number,
        required: true,
    },
    Field {
        key: Key::Root,
        kind: Kind::Text,
        required: true,
    },
    Field {
        key: Key::Tag,
        kind: Kind::Tables,
        required: false,
    },
    Field {
        key: Key::Fd,
        kind: Kind::Tables,
        required: false,
    },
    Field {
        key: Key::File,
        kind: Kind::Tables,
        required: false,
    },
];

static DATA: [Field; 4] = [
    Field {
        key: Key::Name,
        kind: Kind::Text,
        required: true,
    },
    Field {
        key: Key::Base,
        kind: Kind::Number,
        required: true,
    },
    Field {
        key: Key::Text,
        kind: Kind::Text,
        required: false,
    },
    Field {
        key: Key::Hex,
        kind: Kind::Hex,
        required: false,
    },
];

static TAG: [Field; 5] = [
    Field {
        key: Key::Name,
        kind: Kind::Text,
        required: true,
    },
    Field {
        key: Key::Pages,
        kind: Kind::Number,
        required: true,
    },
    Field {
        key: Key::Right,
        kind: Kind::Right,
        required: true,
    },
    Field {
        key: Key::Text,
        kind: Kind::Text,
        required: false,
    },
    Field {
        key: Key::Hex,
        kind: Kind::Hex,
        required: false,
    },
];

static FD: [Field; 5] = [
    Field {
        key: Key::Name,
        kind: Kind::Text,
        required: true,
    },
    Field {
        key: Key::Kind,
        kind: Kind::Stream,
        required: true,
    },
    Field {
        key: Key::Bits,
        kind: Kind::Bits,
        required: true,
    },
    Field {
        key: Key::Text,
        kind: Kind::Text,
        required: false,
    },
    Field {
        key: Key::Hex,
        kind: Kind::Hex,
        required: false,
    },
];

static FILE: [Field; 6] = [
    Field {
        key: Key::Path,
        kind: Kind::Text,
        required: true,
    },
    Field {
        key: Key::Owner,
        kind: Kind::Number,
        required: true,
    },
    Field {
        key: Key::Mode,
        kind: Kind::Number,
        required: true,
    },
    Field {
        key: Key::Kind,
        kind: Kind::Stream,
        required: true,
    },
    Field {
        key: Key::Text,
        kind: Kind::Text,
        required: false,
    },
    Field {
        key: Key::Hex,
        kind: Kind::Hex,
        required: false,
    },
];

impl Part {
    /// The keys that a table may have.
    pub fn fields(self) -> &'static [Field]
        ensures { result.now ≡ keys.part_fields self }
    {
        match self {
            Part::Top => &TOP,
            Part::Joined => &JOINED,
            Part::Data => &DATA,
            Part::Tag => &TAG,
            Part::Fd => &FD,
            Part::File => &FILE,
        }
    }

    /// The prefix of a key's name in a fault.
    pub fn prefix(self) -> &'static str
        ensures { result.now ≡ keys.prefix self }
    {
        match self {
            Part::Top | Part::Joined => "",
            Part::Data => "data.",
            Part::Tag => "tag.",
            Part::Fd => "fd.",
            Part::File => "file.",
        }
    }
}

impl Key {
    /// How the key is written. It may be held beside names that a table has.
    pub fn name<'a>(self) -> &'a str
        ensures { result.now ≡ keys.name_of self }
    {
        match self {
            Key::Fuel => "fuel",
            Key::User => "user",
            Key::Entry => "entry",
            Key::Root => "root",
            Key::Base => "base",
            Key::Data => "data",
            Key::Tag => "tag",
            Key::Fd => "fd",
            Key::File => "file",
            Key::Name => "name",
            Key::Text => "text",
            Key::Hex => "hex",
            Key::Pages => "pages",
            Key::Right => "right",
            Key::Kind => "kind",
            Key::Bits => "bits",
            Key::Path => "path",
            Key::Owner => "owner",
            Key::Mode => "mode",
        }
    }
}
