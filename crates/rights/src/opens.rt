//! How a file is opened.

ghost use Rattle.std.specs.Prelude.{◌≡◌, ◌↔◌, IsSome, IfSome, IsTrue};
ghost use Rattle.rights.specs.Opens.{OpenRequest, is_valid, no_request, open_request};

use std::marker::Model;

/// The flags of an open: to read, to write or both; append and trunc only with write. A clause sees
/// the five. (open(2), in this profile's flags)
#[derive(Clone, Copy, PartialEq, Eq)]
pub struct OpenFlags {
    read: bool,
    write: bool,
    append: bool,
    create: bool,
    trunc: bool,
}

impl Model for OpenFlags {
    ghost Value = { OpenRequest };

    ghost view = { λ f. open_request f.read f.write f.append f.create f.trunc };

    ghost invariant = { λ f. IsTrue (is_valid (open_request f.read f.write f.append f.create f.trunc)) };

    ghost inverse = { λ r. record { read = r.read; write = r.write; append = r.append; create = r.create; trunc = r.trunc } };
}

impl OpenFlags {
    /// These flags, or `None` where neither read nor write is among them, or append or trunc comes
    /// without write.
    pub fn new(
        read: bool,
        write: bool,
        append: bool,
        create: bool,
        trunc: bool,
    ) -> Option<OpenFlags>
        ensures valid { IsSome result ↔ IsTrue (is_valid (open_request read write append create trunc)) }
        ensures value { IfSome result (λ flags. flags ≡ open_request read write append create trunc) }
    {
        if (read || write) && (!append || write) && (!trunc || write) {
            Some(OpenFlags {
                read,
                write,
                append,
                create,
                trunc,
            })
        } else {
            None
        }
    }

    /// The flags of a call that opens nothing, which no need of it looks at.
    pub fn unused() -> OpenFlags
        ensures { result ≡ no_request }
    {
        OpenFlags {
            read: true,
            write: false,
            append: false,
            create: false,
            trunc: false,
        }
    }

    /// Whether the file is opened to be read.
    pub fn read(self) -> bool
        ensures { result ≡ self.read }
    {
        self.read
    }

    /// Whether the file is opened to be written, as it is with append and with trunc.
    pub fn write(self) -> bool
        ensures value { result ≡ self.write }
        ensures valid { IsTrue (is_valid self) }
    {
        self.write
    }

    /// Whether each write goes to the file's end.
    pub fn append(self) -> bool
        ensures { result ≡ self.append }
    {
        self.append
    }

    /// Whether a file that is not there is made.
    pub fn create(self) -> bool
        ensures { result ≡ self.create }
    {
        self.create
    }

    /// Whether a file that is there loses its bytes.
    pub fn trunc(self) -> bool
        ensures { result ≡ self.trunc }
    {
        self.trunc
    }
}
