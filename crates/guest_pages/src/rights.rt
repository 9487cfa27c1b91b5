ghost use Rattle.std.specs.Prelude.{◌≡◌};
ghost use Rattle.guest_pages.specs.Cells.{include, has_none};

/// What may be done with the bytes of a page.
#[derive(Clone, Copy, Debug, PartialEq, Eq)]
pub struct Rights {
    pub read: bool,
    pub write: bool,
    pub execute: bool,
}

/// No right.
pub const NOTHING: Rights = Rights {
    read: false,
    write: false,
    execute: false,
};

/// The right to read.
pub const READABLE: Rights = Rights {
    read: true,
    write: false,
    execute: false,
};

/// The right to write.
pub const WRITABLE: Rights = Rights {
    read: false,
    write: true,
    execute: false,
};

/// The right to execute.
pub const EXECUTABLE: Rights = Rights {
    read: false,
    write: false,
    execute: true,
};

/// The rights to read and to write.
pub const CHANGEABLE: Rights = Rights {
    read: true,
    write: true,
    execute: false,
};

/// The rights to read and to execute.
pub const RUNNABLE: Rights = Rights {
    read: true,
    write: false,
    execute: true,
};

impl Rights {
    /// They are all among these.
    #[inline(always)]
    pub fn include(self, needed: Rights) -> bool
        ensures { result ≡ include self needed }
    {
        (!needed.read || self.read)
            && (!needed.write || self.write)
            && (!needed.execute || self.execute)
    }

    /// No right is among them.
    #[inline]
    pub fn has_none(self) -> bool
        ensures { result ≡ has_none self }
    {
        !(self.read || self.write || self.execute)
    }
}
