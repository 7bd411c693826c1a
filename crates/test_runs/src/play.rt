//! Scripts that a reactor's one thread plays: which journals and which lines come of them.

mod journals;
mod many;
mod playing;
