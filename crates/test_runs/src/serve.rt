//! Scripts that the server plays by a pool of workers: how the runs end, and which journals and
//! lines come of them.

mod failing;
mod journals;
mod many;
mod playing;
