//! The encoders of both versions of the record.

ghost use Rattle.std.specs.Prelude.{◌≡◌, ◌≤◌, ◌<◌, ◌+◌, ◌++◌, ℕ, ℤ, length, IfOk, IsErrAnd, OnOk};
ghost use Rattle.std.specs.Prelude.{FitsSigned};
ghost use Rattle.std.specs.Int.{w32};
ghost use Rattle.cdr_record.specs.Spelling as S;

use crate::bytes::Bytes;
use crate::grammar::{HEADER, LONGEST_MESSAGE, order_of, seconds_size};
use crate::record::{LogRecord, Order};
use byteorder::{BigEndian, ByteOrder, LittleEndian};
use std::alloc::{AllocError, Global};
use std::error::Error;
use std::fmt;

/// Why a record is not encoded.
#[derive(Clone, Copy, PartialEq, Eq, Hash, Debug)]
pub enum EncodeRefused {
    /// The message has more than 65,536 bytes.
    TooLong {
        /// How many bytes it has.
        length: u64,
    },
    /// The seconds do not fit the 32 bits that version 1 has for them.
    SecondsWide {
        /// The seconds.
        sec: i64,
    },
    /// There was no memory for the bytes.
    NoMemory,
}

impl fmt::Display for EncodeRefused {
    fn fmt<W: fmt::Write>(&self, f: &mut fmt::Formatter<W>) -> fmt::Result {
        match self {
            EncodeRefused::TooLong { length } => write!(
                f,
                "a message of {length} bytes is too long"
            ),
            EncodeRefused::SecondsWide { sec } => write!(f, "{sec} seconds do not fit 32 bits"),
            EncodeRefused::NoMemory => write!(f, "out of memory"),
        }
    }
}

impl Error for EncodeRefused {}

impl From<AllocError> for EncodeRefused {
    ghost use Rattle.std.specs.Prelude.{◌≡◌};
    ghost use Rattle.cdr_record.specs.declared.encoding.EncodeRefused.TheVariants.{NoMemory};

    ghost from_gives = { λ _ e. e ≡ NoMemory };

    fn from(_: AllocError) -> EncodeRefused {
        EncodeRefused::NoMemory
    }
}

/// Appends a number in four bytes.
#[tactic(auto, unfolding(crate::specs::Spelling::bytes_of))]
fn push_word(out: &mut Vec<u8>, order: Order, n: u32) -> Result<(), AllocError>
    ensures { OnOk result (out.new.items ≡ out.old.items ++ S.bytes_of order 4 n) }
{
    let mut bytes = [0u8; 4];
    match order {
        Order::Big => BigEndian::write_u32(&mut bytes, n),
        Order::Little => LittleEndian::write_u32(&mut bytes, n),
    }
    out.extend_from_slice(&bytes)
}

/// Appends a number in eight bytes.
#[tactic(auto, unfolding(crate::specs::Spelling::bytes_of))]
fn push_double_word(out: &mut Vec<u8>, order: Order, n: u64) -> Result<(), AllocError>
    ensures { OnOk result (out.new.items ≡ out.old.items ++ S.bytes_of order 8 n) }
{
    let mut bytes = [0u8; 8];
    match order {
        Order::Big => BigEndian::write_u64(&mut bytes, n),
        Order::Little => LittleEndian::write_u64(&mut bytes, n),
    }
    out.extend_from_slice(&bytes)
}

/// Appends the seconds after an order octet.
#[tactic(auto, unfolding(crate::specs::Grammar::seconds_size, crate::specs::Grammar::seconds_width))]
fn push_seconds(out: &mut Vec<u8>, octet: u8, sec: i64) -> Result<(), AllocError>
    requires { octet < 2 → FitsSigned w32 sec }
    ensures { OnOk result (out.new.items ≡ out.old.items ++ S.seconds_bytes octet sec) }
{
    let order = order_of(octet);
    if octet < 2 {
        push_word(out, order, (sec as i32).cast_unsigned())
    } else {
        push_double_word(out, order, sec.cast_unsigned())
    }
}

/// The record after an order octet.
fn spell(alloc: Global, octet: u8, r: &LogRecord) -> Result<Vec<u8>, AllocError>
    requires length { length r.now.text ≤ 65536 }
    requires seconds { octet < 2 → FitsSigned w32 r.now.sec }
    ensures { IfOk result (λ bytes. bytes.items ≡ S.spelling octet r.now) }
{
    let order = order_of(octet);
    let message = r.text.as_slice();
    let payload = 16 + seconds_size(octet) + message.len();
    let mut out = Vec::with_capacity(alloc, HEADER + payload)?;
    out.extend_from_slice(&[octet, 0, 0, 0])?;
    push_word(&mut out, order, payload as u32)?;
    push_word(&mut out, order, r.kind.cast_unsigned())?;
    push_word(&mut out, order, r.pid.cast_unsigned())?;
    push_seconds(&mut out, octet, r.sec)?;
    push_word(&mut out, order, r.usec.cast_unsigned())?;
    push_word(&mut out, order, message.len() as u32)?;
    out.extend_from_slice(message)?;
    Ok(out)
}

/// The order octet of version 1.
fn octet_of(order: Order) -> u8
    ensures octet { result ≡ S.octet_1 order }
    ensures version { result < 2 }
{
    match order {
        Order::Big => 0,
        Order::Little => 1,
    }
}

/// The canonical spelling of a record in version 1: padding 0 and no slack.
///
/// `TooLong` comes exactly if the message has more than 65,536 bytes, and `SecondsWide` exactly
/// if the message fits and the seconds do not fit 32 bits.
pub fn encode(alloc: Global, r: &LogRecord, order: Order) -> Result<Bytes, EncodeRefused>
    ensures ok { IfOk result (λ bytes. bytes ≡ S.canon r.now order) }

    // A message that is too long is refused, and no other is refused as too long.
    ensures too_long { 65536 < length r.now.text → result
        ≡ Err (EncodeRefused.TooLong (length r.now.text)) }
    ensures too_long_only { (n : ℕ) → result ≡ Err (EncodeRefused.TooLong n)
        → (65536 < length r.now.text) × (n ≡ length r.now.text) }

    // So are seconds that are too wide, if the message fits.
    ensures seconds_wide { length r.now.text ≤ 65536 → ¬ FitsSigned w32 r.now.sec
        → result ≡ Err (EncodeRefused.SecondsWide r.now.sec) }
    ensures seconds_wide_only { (s : ℤ) → result ≡ Err (EncodeRefused.SecondsWide s)
        → (length r.now.text ≤ 65536) × ¬ FitsSigned w32 r.now.sec × (s ≡ r.now.sec) }
{
    let length = r.text.as_slice().len();
    if length > LONGEST_MESSAGE {
        return Err(EncodeRefused::TooLong {
            length: length as u64,
        });
    }
    let sec = r.sec;
    if sec < i64::from(i32::MIN) || sec > i64::from(i32::MAX) {
        return Err(EncodeRefused::SecondsWide { sec });
    }
    Ok(Bytes::new(spell(alloc, octet_of(order), r)?))
}

/// The canonical spelling of a record in version 2, whose seconds have 64 bits: padding 0 and no
/// slack.
///
/// `TooLong` comes exactly if the message has more than 65,536 bytes, and `SecondsWide` never.
pub fn encode_2(alloc: Global, r: &LogRecord, order: Order) -> Result<Bytes, EncodeRefused>
    ensures ok { IfOk result (λ bytes. bytes ≡ S.canon_2 r.now order) }

    // A message that is too long is refused, and no other is refused as too long.
    ensures too_long { 65536 < length r.now.text → result
        ≡ Err (EncodeRefused.TooLong (length r.now.text)) }
    ensures too_long_only { (n : ℕ) → result ≡ Err (EncodeRefused.TooLong n)
        → (65536 < length r.now.text) × (n ≡ length r.now.text) }

    // No seconds are too wide.
    ensures never_seconds_wide { (s : ℤ) → ¬ (result ≡ Err (EncodeRefused.SecondsWide s)) }
{
    let length = r.text.as_slice().len();
    if length > LONGEST_MESSAGE {
        return Err(EncodeRefused::TooLong {
            length: length as u64,
        });
    }
    Ok(Bytes::new(spell(alloc, octet_of(order) + 2, r)?))
}
