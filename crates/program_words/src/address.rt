//! The address that the program's own options say.
ghost use Rattle.std.specs.Prelude.{option_map, MatchOption};
ghost use Rattle.program_words.specs.Calling.{SaysAddress, SaysNone};

use std::net::{IpAddr, Ipv4Addr};

/// The address of this machine alone, 127.0.0.1.
pub(crate) const LOCAL: IpAddr = IpAddr::V4(Ipv4Addr::LOCALHOST);

/// The address that the text of an option spells, that of this machine alone without one, and
/// None if it spells none.
pub(crate) fn read_address(text: Option<&str>) -> Option<IpAddr>
    ensures { MatchOption result (SaysNone (option_map (λ s. s.now) text.entry))
        (SaysAddress (option_map (λ s. s.now) text.entry)) }
{
    match text {
        Some(text) => IpAddr::parse_ascii(text.as_bytes()).ok(),
        None => Some(LOCAL),
    }
}
