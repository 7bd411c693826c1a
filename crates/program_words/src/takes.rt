//! Which options of the program's own a command has.
ghost use Rattle.std.specs.Prelude.{◌≡◌, map};
ghost use Rattle.std.specs.String.{string_bytes};
ghost use Rattle.program_words.specs.Parting.{has_ace7, has_address, has_control, takes_of};

/// Which options of the program's own a command has.
#[derive(Clone, Copy, PartialEq, Eq, Debug)]
pub(crate) struct Takes {
    /// `--address A`.
    pub(crate) address: bool,
    /// `--control`.
    pub(crate) control: bool,
    /// `--ace7`.
    pub(crate) ace7: bool,
}

/// The options of the command that the first word names.
pub(crate) fn takes_of(words: &[String]) -> Takes
    ensures { result ≡ takes_of (map string_bytes words.now) }
{
    match words {
        [name, ..] => Takes {
            address: has_address(name),
            control: has_control(name),
            ace7: has_ace7(name),
        },
        [] => Takes {
            address: false,
            control: false,
            ace7: false,
        },
    }
}

// Whether the command listens to an address, or dials one.
fn has_address(name: &str) -> bool
    ensures { result ≡ has_address name.now }
{
    name == "serve" || name == "aio" || name == "pool" || name == "forward"
}

// Whether the command runs until it is ended.
fn has_control(name: &str) -> bool
    ensures { result ≡ has_control name.now }
{
    name == "serve" || name == "aio" || name == "pool"
}

// Whether the command reads the records of clients.
fn has_ace7(name: &str) -> bool
    ensures { result ≡ has_ace7 name.now }
{
    name == "one" || name == "display" || name == "serve" || name == "pool"
}
