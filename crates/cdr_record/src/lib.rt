//! The log record of the networked logging server (C++ Network Programming, vol. 2) in CDR, the
//! Common Data Representation: what a list of bytes spells, the encoders of both versions of the
//! record, and a decoder of a stream that comes in any pieces.
//!
//! A record is a header of 8 bytes and a payload. The first byte, the order octet, names the
//! version and the byte order: 0 and 1 are version 1, the book's, whose seconds have 32 bits; 2 and
//! 3 are version 2, whose seconds have 64 bits. Even is big-endian, odd little-endian. Three bytes
//! of padding follow, and the payload's length in four bytes. The payload has the type and the
//! process id in four bytes each, the seconds, the microseconds and the message's length in four
//! bytes each, and the message. Padding, and slack after the message, may hold anything in what is
//! read.
#![tactic(auto)]

mod bad;
mod bytes;
mod decoder;
mod encoding;
mod grammar;
pub mod laws;
mod one_record;
mod record;
mod record_list;

pub use bad::{Bad, BadWhy};
pub use bytes::Bytes;
pub use decoder::{Decoder, Fed};
pub use encoding::{EncodeRefused, encode, encode_2};
pub use grammar::{First, first_in};
pub use one_record::only_record;
pub use record::{LogRecord, Order, RecordRef, Records};
pub use record_list::RecordList;
