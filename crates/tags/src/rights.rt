// Who may read and write each page of a pump tag.
ghost use Rattle.std.specs.Prelude.{◌≡◌, ◌%◌};
ghost use Rattle.tags.specs.Rules.{rights_of};

#[derive(Clone, Copy, PartialEq, Eq, Debug)]
pub enum Reading {
    Always,
    WhenOpen,
    Never,
}

#[derive(Clone, Copy, PartialEq, Eq, Debug)]
pub enum Writing {
    WhenOpen,
    ByCount,
    Never,
}

#[derive(Clone, Copy, PartialEq, Eq, Debug)]
pub struct Rights {
    pub read: Reading,
    pub write: Writing,
}

const LOCKS: Rights = Rights {
    read: Reading::Always,
    write: Writing::Never,
};

const SHOWN: Rights = Rights {
    read: Reading::Always,
    write: Writing::WhenOpen,
};

const COUNT: Rights = Rights {
    read: Reading::Always,
    write: Writing::ByCount,
};

const SECRET: Rights = Rights {
    read: Reading::Never,
    write: Writing::WhenOpen,
};

const USER: Rights = Rights {
    read: Reading::WhenOpen,
    write: Writing::WhenOpen,
};

// The rights of the 32 pages.
const RIGHTS: [Rights; 32] = [
    LOCKS, SHOWN, COUNT, SECRET, USER, USER, USER, USER, USER, USER, USER, USER, USER, USER, USER,
    USER, USER, USER, USER, USER, USER, USER, USER, USER, USER, USER, USER, USER, USER, USER, USER,
    USER,
];

// The rights of a page, of which the low five bits count.
pub fn rights_of(page: u8) -> Rights
    ensures { result ≡ rights_of (page % 32) }
{
    RIGHTS[(page % 32) as usize]
}
