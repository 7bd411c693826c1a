//! What a sink that writes behind began with.

use rtrb::Consumer;
use std::marker::Brand;

/// What a sink that writes behind began with. The members are for contracts alone; who starts one
/// picks them.
pub trait Start {
    ghost use Rattle.std.specs.Prelude.{Option};
    ghost use Rattle.ev_base.specs.Sink.{SinkFacts};
    ghost use Rattle.write_behind.specs.Queues.{ByteConsumer};

    // What the sink below told.
    ghost facts: { SinkFacts };

    // The end of its queue at which the bytes come out.
    ghost consumer: { Option ByteConsumer };
}

impl Start for Brand {
    ghost use Rattle.std.specs.Prelude.{None};

    ghost facts = { record { faults = 0; text = None } };

    ghost consumer = { None };
}
