//! What texts are put into: a buffer before a sink, which gathers what is put piece by piece and
//! writes it in few calls, a sink that writes what is put at once, a text in memory that grows, and
//! a short text in a fixed place.
#![tactic(auto)]

mod buffer;
mod direct;
mod growing;
mod short;
mod text_out;

pub use buffer::{SinkBuffer, write_all};
pub use direct::DirectSink;
pub use growing::GrowingText;
pub use short::ShortText;
pub use text_out::TextOut;
