//! The source.
ghost use Rattle.std.specs.Prelude.{◌≡◌, ◌<◌, [], length};
ghost use Rattle.std.proofs.Props.{props};
ghost use Rattle.ev_base.specs.Bytes.{HasGiven};
ghost use Rattle.ev_base.specs.Source.{Reads};
ghost use Rattle.ace7_input.specs.Places.{EndsAt};

use crate::place::Place;
use ev_base::{Got, Source};

/// A source whose bytes are those of another one, but with the order octet of version 2 in each
/// header. It makes one read of that for each of its own, and takes no memory.
#[derive(Drop)]
pub struct Ace7Source<S: Source> {
    inner: S,
    place: Place,
    ghost placed: { EndsAt (S.facts inner).bytes place } by { Prim.hlevel props },
}

impl<S: Source> Ace7Source<S> {
    ghost use Rattle.ace7_input.specs.Ends.{source_within};

    /// A source over this one, which has given nothing.
    pub fn new(inner: S) -> Ace7Source<S>
        requires { HasGiven (S.facts inner).bytes [] }
        ensures { source_within result ≡ inner }
    {
        Ace7Source {
            inner,
            place: Place::start(),
        }
    }

    /// The source within.
    pub fn into_inner(self) -> S
        ensures { result ≡ source_within self }
    {
        let Ace7Source { inner, place: _ } = self;
        inner
    }
}

impl<S: Source> Source for Ace7Source<S> {
    ghost use Rattle.ace7_input.specs.Ends.{ace7_source_facts};

    ghost facts = { ace7_source_facts S.facts };

    fn read(&mut self, buf: &mut [u8]) -> Got {
        let got = self.inner.read(buf);
        if let Got::Bytes(count) = got {
            self.place.pass_on(&mut buf[..count]);
        }
        got
    }
}
