//! What a reactor and an event handler say to each other (C++NPv2 chapter 3, `ACE_Event_Handler`).

/// The number of a registration: handles are numbered from 0 in the order in which handlers are
/// registered, and none is used again.
#[derive(Clone, Copy, PartialEq, Eq, PartialOrd, Ord, Hash, Debug)]
pub struct Handle(pub u64);

/// The kinds of report that a registration wants (ACE's `READ_MASK`, `WRITE_MASK`, `EXCEPT_MASK`).
#[derive(Clone, Copy, PartialEq, Eq, Hash, Debug)]
pub struct Mask {
    /// Reports that a read or an accept would not wait.
    pub read: bool,
    /// Reports that a write would not wait.
    pub write: bool,
    /// Reports of exceptional data.
    pub except: bool,
}

impl Mask {
    /// No kind.
    pub const NONE: Mask = Mask {
        read: false,
        write: false,
        except: false,
    };

    /// Reads and accepts alone.
    pub const READ: Mask = Mask {
        read: true,
        ..Mask::NONE
    };

    /// Writes alone.
    pub const WRITE: Mask = Mask {
        write: true,
        ..Mask::NONE
    };
}

/// What a report of the demultiplexer, or a notification, is about.
#[derive(Clone, Copy, PartialEq, Eq, Hash, Debug)]
pub enum Kind {
    /// A read or an accept would not wait.
    Read,
    /// A write would not wait.
    Write,
    /// There is exceptional data.
    Except,
}

/// What an upcall answers: ACE's 0, above 0 and -1.
#[derive(Clone, Copy, PartialEq, Eq, Hash, Debug)]
pub enum Answer {
    /// Stay registered.
    Keep,
    /// Stay registered, and make the same upcall once more before the demultiplexer is asked again.
    Again,
    /// End the registration.
    Close,
}

/// Which method of an event handler is called: `handle_input`, `handle_output`, `handle_exception`,
/// `handle_timeout`, or the upcall of a notification.
#[derive(Clone, Copy, PartialEq, Eq, Hash, Debug)]
pub enum Upcall {
    /// A report of kind Read.
    Input,
    /// A report of kind Write.
    Output,
    /// A report of kind Except.
    Except,
    /// The timer of this number came due.
    Timeout {
        /// The timer's number.
        timer: u64,
    },
    /// A notification was posted.
    Notice {
        /// The kind that the poster gave.
        kind: Kind,
    },
}

/// Why `handle_close` is called.
#[derive(Clone, Copy, PartialEq, Eq, Hash, Debug)]
pub enum Why {
    /// An upcall of the handler itself answered Close.
    Own,
    /// A caller, or the end of the reactor, removed the handler.
    Removed,
    /// The handler was offered by an upcall and was not registered.
    Refused,
}
