//! The bytes of a generated record.
ghost use Rattle.std.specs.Prelude.{◌≡◌, ◌≤◌, ◌<◌, ◌+◌, ◌++◌, ◌∷◌, [], ◌^◌, ◌%◌, length, map, OnOk};
ghost use Rattle.std.specs.List.{range_with_len};
ghost use Rattle.cdr_record.specs.Spelling.{bytes_of as number_bytes, octet_1};
ghost use Rattle.script_generator.specs.Records.{letter, letter_count, message, order_of, padding};
ghost use Rattle.script_generator.specs.Records.{bytes_of};

use byteorder::{BigEndian, ByteOrder, LittleEndian};
use cdr_record::Order;
use ev_types::NoMemory;

/// How many bytes the fields of a record have that stand before its message: the payload's length
/// counts them.
const FIELDS: u32 = 20;

/// The byte order of the record of a round and a connection.
fn order_of(round: u64, conn: u64) -> Order
    requires round { round < 1000 }
    requires conn { conn < 1000 }
    ensures { result ≡ order_of round conn }
{
    if (round + conn) % 2 == 1 {
        Order::Little
    } else {
        Order::Big
    }
}

/// The order octet of version 1.
fn octet_of(order: Order) -> u8
    ensures { result ≡ octet_1 order }
{
    match order {
        Order::Big => 0,
        Order::Little => 1,
    }
}

/// Appends a number in four bytes.
#[tactic(auto, unfolding(cdr_record::specs::Spelling::bytes_of))]
fn push_word(out: &mut Vec<u8>, order: Order, n: u32) -> Result<(), NoMemory>
    ensures { OnOk result (out.new.items ≡ out.old.items ++ number_bytes order 4 n) }
{
    let mut bytes = [0u8; 4];
    match order {
        Order::Big => BigEndian::write_u32(&mut bytes, n),
        Order::Little => LittleEndian::write_u32(&mut bytes, n),
    }
    out.extend_from_slice(&bytes)?;
    Ok(())
}

/// How many letters a message has.
fn letter_count(seed: u64, round: u64, conn: u64) -> u64
    requires seed { seed ≤ 4294967295 }
    requires round { round < 1000 }
    requires conn { conn < 1000 }
    ensures count { result ≡ letter_count seed round conn }
    ensures few { result < 40 }
{
    (seed + 7 * round + 3 * conn) % 40
}

/// The type of a record: the priority whose number is a power of 2 below 2^11.
fn kind_of(round: u64, conn: u64) -> u32
    requires round { round < 1000 }
    requires conn { conn < 1000 }
    ensures { result ≡ 2 ^ ((round + conn) % 11) }
{
    2u32.pow(((round + conn) % 11) as u32)
}

/// Appends so many letters of a message.
fn push_letters(out: &mut Vec<u8>, round: u64, conn: u64, count: u64) -> Result<(), NoMemory>
    requires round { round < 1000 }
    requires conn { conn < 1000 }
    requires count { count < 40 }
    ensures { OnOk result (out.new.items ≡ out.old.items
        ++ map (letter round conn) (range_with_len 0 count)) }
{
    for j in 0..count {
        out.push(b'a' + ((round + conn + j) % 26) as u8)?;
    }
    Ok(())
}

/// Puts the bytes of the record of a round and a connection into a vector, in place of what it had.
/// After `NoMemory` it is not to be used.
pub(crate) fn spell_record(
    out: &mut Vec<u8>,
    seed: u64,
    round: u64,
    conn: u64,
) -> Result<(), NoMemory>
    requires seed { seed ≤ 4294967295 }
    requires round { round < 1000 }
    requires conn { conn < 1000 }
    ensures bytes { OnOk result (out.new.items ≡ bytes_of seed round conn) }
    ensures least { OnOk result (29 ≤ length out.new.items) }
    ensures most { OnOk result (length out.new.items ≤ 68) }
{
    let order = order_of(round, conn);
    let padding = ((round + conn) % 256) as u8;
    let letters = letter_count(seed, round, conn);
    let length = letters as u32 + 1;
    out.clear();
    out.extend_from_slice(&[octet_of(order), padding, padding, padding])?;
    push_word(out, order, FIELDS + length)?;
    push_word(out, order, kind_of(round, conn))?;
    push_word(out, order, 1000 + conn as u32)?;
    push_word(out, order, round as u32)?;
    push_word(out, order, (seed % 1_000_000) as u32)?;
    push_word(out, order, length)?;
    push_letters(out, round, conn, letters)?;
    out.push(0)?;
    Ok(())
}
