// The rule of the ring's table, and what each of its steps tells.
use crate::view::View;
use atomic_table::{Join, Play, Split, TableRule};
use std::marker::{Brand, PhantomData};

/// Between any two steps: where each posting is, who drew it, and what each place holds.
pub struct RingRule;

impl TableRule<(), View, ()> for RingRule {
    ghost use Rattle.notify_ring.specs.Rule.{RingHolds, first_view};

    ghost holds = { λ _ s. RingHolds s.words s.views };

    ghost first = { λ _. first_view };
}

/// A poster claims a place.
pub struct Claim;

impl Play<(), View> for Claim {
    ghost use Rattle.notify_ring.specs.Steps.{ClaimMade};

    ghost then = { λ st m r n. ClaimMade m r n };
}

/// A claim is given back, or a handle or a gate is stored.
pub struct NextFlight;

impl Play<(), View> for NextFlight {
    ghost use Rattle.notify_ring.specs.Steps.{FlightMoved};

    ghost then = { λ st m r n. FlightMoved m n };
}

/// What is posted, which a proof picks.
pub trait Posted {
    ghost use Rattle.std.specs.Prelude.{List};
    ghost use Rattle.ev_types.specs.declared.upcall.Handle.{Handle};
    ghost use Rattle.ev_types.specs.declared.upcall.Kind.{Kind};

    ghost handle: { Handle };

    ghost kind: { Kind };
}

impl Posted for Brand {
    ghost use Rattle.ev_types.specs.declared.upcall.Kind.TheVariants.{Read};

    ghost handle = { record { 0 = 0 } };

    ghost kind = { Read };
}

/// A poster draws a number.
pub struct Draw<B> {
    marker: PhantomData<B>,
}

impl<B: Posted> Play<(), View> for Draw<B> {
    ghost use Rattle.notify_ring.specs.Steps.{NumberDrawn};

    ghost then = { λ st m r n. NumberDrawn B.handle B.kind m r n };
}

/// The root makes a poster, or takes one in.
pub struct PosterPass;

impl Split<View> for PosterPass {
    ghost use Rattle.notify_ring.specs.Passes.{split_left, split_right};

    ghost left = { split_left };

    ghost right = { split_right };
}

impl Join<View> for PosterPass {
    ghost use Rattle.notify_ring.specs.Passes.{joined, blank};

    ghost both = { joined };

    ghost spent = { blank };
}

/// The drainer loads the gate of the next number.
pub struct LoadGate;

impl Play<(), View> for LoadGate {
    ghost use Rattle.notify_ring.specs.Steps.{GateLoaded};

    ghost then = { λ st m r n. GateLoaded m r n };
}

/// The drainer looks whether the gate of the next number is empty.
pub struct PeekGate;

impl Play<(), View> for PeekGate {
    ghost use Rattle.notify_ring.specs.Steps.{GatePeeked};

    ghost then = { λ st m r n. GatePeeked m r n };
}

/// The drainer loads the handle.
pub struct LoadHandle;

impl Play<(), View> for LoadHandle {
    ghost use Rattle.notify_ring.specs.Steps.{HandleLoaded};

    ghost then = { λ st m r n. HandleLoaded m r n };
}

/// The drainer clears the gate.
pub struct ClearGate;

impl Play<(), View> for ClearGate {
    ghost use Rattle.notify_ring.specs.Steps.{GateCleared};

    ghost then = { λ st m r n. GateCleared m n };
}

/// The drainer gives the place back.
pub struct Release;

impl Play<(), View> for Release {
    ghost use Rattle.notify_ring.specs.Steps.{PlaceReleased};

    ghost then = { λ st m r n. PlaceReleased m n };
}

/// The drainer's part of the first view is split off, and comes back at the end.
pub struct DrainerPass;

impl Split<View> for DrainerPass {
    ghost use Rattle.notify_ring.specs.Steps.{poster_part, drainer_part};

    ghost left = { poster_part };

    ghost right = { drainer_part };
}

impl Join<View> for DrainerPass {
    ghost use Rattle.notify_ring.specs.Passes.{blank};
    ghost use Rattle.notify_ring.specs.Steps.{with_drainer};

    ghost both = { with_drainer };

    ghost spent = { blank };
}
