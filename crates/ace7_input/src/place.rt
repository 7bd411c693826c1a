//! Where in a client's bytes the next one stands.
ghost use Rattle.std.specs.Prelude.{◌≡◌, ◌≤◌, ◌<◌, ◌∷◌, [], ℕ, List, length};
ghost use Rattle.cdr_record.specs.Grammar.{payload_length};
ghost use Rattle.ace7_input.specs.Places.{place_after};
ghost use Rattle.ace7_input.specs.Wide.{widened};

use crate::begun::Begun;
use byteorder::{BigEndian, ByteOrder, LittleEndian};

/// The fewest bytes of a payload of version 2, and the most.
const LEAST: usize = 24;

const MOST: usize = 65_560;

/// Where the next byte stands.
#[derive(Clone, Copy)]
pub(crate) enum Place {
    /// So many bytes before the next header.
    Payload(usize),
    /// In a header.
    Header(Begun),
    /// After what is no header.
    Behind,
}

/// Where the byte after a whole header stands.
pub(crate) fn after(header: &[u8]) -> Place
    requires { length header.now ≡ 8 }
    ensures { result ≡ place_after header.now }
{
    let length = payload_length(header);
    if length < LEAST || length > MOST {
        Place::Behind
    } else {
        Place::Payload(length)
    }
}

// The payload's length, as the header says.
#[tactic(auto, unfolding(cdr_record::specs::Grammar::number, cdr_record::specs::Grammar::order_of))]
fn payload_length(header: &[u8]) -> usize
    requires { length header.now ≡ 8 }
    ensures { result ≡ payload_length header.now }
{
    let length = if header[0] % 2 == 0 {
        BigEndian::read_u32(&header[4..])
    } else {
        LittleEndian::read_u32(&header[4..])
    };
    length as usize
}

// The order octet of version 2 for one of version 1, and another one as it is.
fn widened(octet: u8) -> u8
    requires { octet < 4 }
    ensures { result ≡ widened octet }
{
    if octet < 2 { octet + 2 } else { octet }
}

impl Place {
    ghost use Rattle.ace7_input.specs.Places.{Passes};

    /// Before the first header.
    pub(crate) fn start() -> Place
        ensures { result ≡ Place.Payload 0 }
    {
        Place::Payload(0)
    }

    /// Makes a piece what stands for it.
    pub(crate) fn pass_on(&mut self, bytes: &mut [u8])
        ensures { Passes self.old bytes.old bytes.new self.new }
    {
        let mut at = 0;
        while at < bytes.len() {
            let passing = self.pass(bytes.len() - at);
            if passing > 0 {
                at += passing;
            } else {
                bytes[at] = self.take(bytes[at]);
                at += 1;
            }
        }
    }

    // Passes bytes that are as they are, at most so many, and tells how many.
    fn pass(&mut self, most: usize) -> usize
        ensures within { result ≤ most }
        ensures passes { (piece : List ℕ) → length piece ≡ result
            → Passes self.old piece piece self.new }
    {
        match *self {
            Place::Behind => most,
            Place::Payload(left) => {
                let passing = left.min(most);
                *self = Place::Payload(left - passing);
                passing
            }
            Place::Header(_) => 0,
        }
    }

    // Takes the next byte, and tells what stands for it.
    fn take(&mut self, byte: u8) -> u8
        ensures { Passes self.old (byte ∷ []) (result ∷ []) self.new }
    {
        match *self {
            Place::Behind => byte,
            Place::Payload(left) if left > 0 => {
                *self = Place::Payload(left - 1);
                byte
            }
            Place::Payload(_) => self.take_octet(byte),
            Place::Header(begun) => {
                *self = begun.add(byte);
                byte
            }
        }
    }

    // Takes the first byte of what may be a header.
    fn take_octet(&mut self, byte: u8) -> u8
        requires { self.old ≡ Place.Payload 0 }
        ensures { Passes self.old (byte ∷ []) (result ∷ []) self.new }
    {
        if byte < 4 {
            *self = Place::Header(Begun::new(byte));
            widened(byte)
        } else {
            *self = Place::Behind;
            byte
        }
    }
}
