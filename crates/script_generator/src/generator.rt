//! The generator.
ghost use Rattle.std.specs.Prelude.{◌≡◌, ◌≤◌, ◌<◌, ◌+◌, ◌++◌, ◌∷◌, [], map, flat_map, OnOk, IfOk};
ghost use Rattle.std.specs.List.{range_with_len};
ghost use Rattle.event_script.specs.Script.{Opens, Shuts};
ghost use Rattle.event_script.specs.Grammar.{At, Stepping};
ghost use Rattle.script_generator.specs.Pieces.{piece_of};
ghost use Rattle.script_generator.specs.Scripts.{last_round, openings, shuttings, round_lines};
ghost use Rattle.script_generator.specs.Texts.{text_of, generated_text};

use crate::lines::{push_at, push_data, push_open, push_shut};
use crate::record::spell_record;
use cdr_record::Bytes;
use ev_types::NoMemory;
use std::alloc::Global;

/// How many bytes of each record come first.
const FRONT: usize = 5;

/// The bytes of the longest record: 28 without its message, 39 letters and a zero byte.
const LONGEST_RECORD: usize = 68;

/// A piece of a record, as it is brought.
#[derive(Clone, Copy)]
enum Piece {
    /// Its first five bytes.
    Front,
    /// The rest of it.
    Rest,
}

/// How many rounds there are.
fn rounds() -> u64
    ensures rounds { result ≡ last_round + 1 }
    ensures few { result ≤ 1000 }
{
    125
}

/// Appends the lines of the connections that come.
fn push_openings(out: &mut Vec<u8>, n: u64) -> Result<(), NoMemory>
    ensures { OnOk result (out.new.items ≡ out.old.items ++ text_of (map Stepping (openings n))) }
{
    for conn in 0..n {
        push_open(out, conn)?;
    }
    Ok(())
}

/// Appends the lines of the connections that are shut.
fn push_shuttings(out: &mut Vec<u8>, n: u64) -> Result<(), NoMemory>
    ensures { OnOk result (out.new.items ≡ out.old.items ++ text_of (map Stepping (shuttings n))) }
{
    for conn in 0..n {
        push_shut(out, conn)?;
    }
    Ok(())
}

/// Appends the line of a piece of a record, which is spelled into a vector beside.
fn push_piece(
    out: &mut Vec<u8>,
    spelled: &mut Vec<u8>,
    piece: Piece,
    seed: u64,
    round: u64,
    conn: u64,
) -> Result<(), NoMemory>
    requires seed { seed ≤ 4294967295 }
    requires round { round < 1000 }
    requires conn { conn < 1000 }
    ensures { OnOk result (out.new.items ≡ out.old.items
        ++ text_of (Stepping (piece_of piece seed round conn) ∷ [])) }
{
    spell_record(spelled, seed, round, conn)?;
    match piece {
        Piece::Front => push_data(out, conn, &spelled[..FRONT]),
        Piece::Rest => push_data(out, conn, &spelled[FRONT..]),
    }
}

/// Appends the lines of this piece of each of a round's records.
fn push_pieces(
    out: &mut Vec<u8>,
    spelled: &mut Vec<u8>,
    piece: Piece,
    n: u64,
    seed: u64,
    round: u64,
) -> Result<(), NoMemory>
    requires n { n ≤ 1000 }
    requires seed { seed ≤ 4294967295 }
    requires round { round < 1000 }
    ensures { OnOk result (out.new.items ≡ out.old.items
        ++ text_of (map Stepping (map (piece_of piece seed round) (range_with_len 0 n)))) }
{
    for conn in 0..n {
        push_piece(out, spelled, piece, seed, round, conn)?;
    }
    Ok(())
}

/// Appends the lines of a round.
fn push_round(
    out: &mut Vec<u8>,
    spelled: &mut Vec<u8>,
    n: u64,
    seed: u64,
    round: u64,
) -> Result<(), NoMemory>
    requires n { n ≤ 1000 }
    requires seed { seed ≤ 4294967295 }
    requires round { round < 1000 }
    ensures { OnOk result (out.new.items ≡ out.old.items ++ text_of (round_lines n seed round)) }
{
    push_at(out, round)?;
    push_pieces(out, spelled, Piece::Front, n, seed, round)?;
    push_pieces(out, spelled, Piece::Rest, n, seed, round)
}

/// Appends the lines of so many rounds.
fn push_rounds(
    out: &mut Vec<u8>,
    spelled: &mut Vec<u8>,
    n: u64,
    seed: u64,
    rounds: u64,
) -> Result<(), NoMemory>
    requires n { n ≤ 1000 }
    requires seed { seed ≤ 4294967295 }
    requires rounds { rounds ≤ 1000 }
    ensures { OnOk result (out.new.items ≡ out.old.items
        ++ text_of (flat_map (round_lines n seed) (range_with_len 0 rounds))) }
{
    for round in 0..rounds {
        push_round(out, spelled, n, seed, round)?;
    }
    Ok(())
}

/// The text of the script that the generator makes of `n` connections and a seed: 125 rounds, in
/// each of which each connection brings one record in two pieces, and 252 steps for each
/// connection. Digits are in lower case, and a line feed ends each line.
///
/// `NoMemory` comes if there is no memory for the text. It is taken as the text grows, and not
/// for each line.
pub fn gen_script(alloc: Global, n: u64, seed: u64) -> Result<Bytes, NoMemory>
    requires some { 1 ≤ n }
    requires within { n ≤ 1000 }
    requires seed { seed ≤ 4294967295 }
    ensures { IfOk result (λ text. text ≡ generated_text n seed) }
{
    let mut spelled = Vec::with_capacity(alloc, LONGEST_RECORD)?;
    let mut out = Vec::new(alloc);
    push_openings(&mut out, n)?;
    push_rounds(&mut out, &mut spelled, n, seed, rounds())?;
    push_shuttings(&mut out, n)?;
    Ok(Bytes::new(out))
}
