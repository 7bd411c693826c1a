//! The laws of what is forwarded. Each function here has a law as its contract and does nothing.
ghost use Rattle.forwarder.specs.Laws.{ShortSecondsFit, TotalsAreExact};

/// A record is sent in version 1 exactly if its seconds are a number of 32 bits.
pub fn short_seconds_fit()
    ensures { ShortSecondsFit }
{}

/// The totals of an input that is not too long are exact.
pub fn totals_are_exact()
    ensures { TotalsAreExact }
{}
