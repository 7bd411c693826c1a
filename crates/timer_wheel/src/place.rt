//! One place of a wheel.
use timer_queue::Timer;

/// A timer of a wheel, and the place of the next in its spoke.
#[derive(Clone, Copy, PartialEq, Eq, Debug)]
pub struct Place {
    pub timer: Timer,
    pub next: Option<usize>,
}
