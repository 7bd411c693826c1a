//! The host.
ghost use Rattle.std.specs.Prelude.{◌≡◌};

use crate::{Ace7End, Ace7Net};
use ev_base::{Host, ListenRefused};
use std::alloc::Global;

/// A host whose connections are those of another one, of clients that use ACE 7 as it stands.
#[derive(Drop)]
pub struct Ace7Host<H> {
    inner: H,
}

impl<H> Ace7Host<H> {
    ghost use Rattle.ace7_input.specs.Nets.{host_within};

    /// A host over this one.
    pub fn new(inner: H) -> Ace7Host<H>
        ensures { host_within result ≡ inner }
    {
        Ace7Host { inner }
    }
}

impl<H: Host> Host for Ace7Host<H> {
    ghost use Rattle.ace7_input.specs.Nets.{host_within, ace7_host_keeps};

    type End = Ace7End<H::End>;

    type Net = Ace7Net<H::Net>;

    type Waker = H::Waker;

    ghost faults = { λ host. H.faults (host_within host) };

    ghost ports = { λ host. H.ports (host_within host) };

    ghost keeps = { ace7_host_keeps H.keeps };

    fn listen(
        &mut self,
        alloc: Global,
        port: u16,
    ) -> Result<(Ace7Net<H::Net>, Ace7End<H::End>, H::Waker), ListenRefused> {
        let (net, end, waker) = self.inner.listen(alloc, port)?;
        Ok((Ace7Net::new(net), Ace7End::new(end), waker))
    }

    ghost keeps_open = { λ t host leaves. (H.keeps_open t host.inner leaves, leaves.stories) };
}
