//! The lines of a script.
ghost use Rattle.std.specs.Prelude.{◌≡◌, ◌≤◌, ◌++◌, length, codes, decimal, OnOk};
ghost use Rattle.hex.specs.Hex.{encode_lower};
ghost use Rattle.event_script.specs.Script.{Opens, Brings, Shuts};
ghost use Rattle.event_script.specs.Grammar.{At, Stepping};
ghost use Rattle.script_generator.specs.Texts.{line_text};

use ev_types::NoMemory;
use hex::encode_to_slice;
use itoa::Buffer;

/// How many bytes a line brings at most.
const LONGEST_PIECE: usize = 64;

/// Appends a number in decimal digits.
fn push_number(out: &mut Vec<u8>, number: u64) -> Result<(), NoMemory>
    ensures { OnOk result (out.new.items ≡ out.old.items ++ decimal number) }
{
    let mut digits = Buffer::new();
    out.extend_from_slice(digits.format(number).as_bytes())?;
    Ok(())
}

/// Appends a word with the space after it, and a number.
fn push_word_and_number(out: &mut Vec<u8>, word: &[u8], number: u64) -> Result<(), NoMemory>
    ensures { OnOk result (out.new.items ≡ out.old.items ++ (word.now ++ decimal number)) }
{
    out.extend_from_slice(word)?;
    push_number(out, number)?;
    Ok(())
}

/// Appends at most 64 bytes in lower-case hexadecimal digits.
fn push_digits(out: &mut Vec<u8>, bytes: &[u8]) -> Result<(), NoMemory>
    requires { length bytes.now ≤ 64 }
    ensures { OnOk result (out.new.items ≡ out.old.items ++ encode_lower bytes.now) }
{
    let mut digits = [0u8; 2 * LONGEST_PIECE];
    let text = &mut digits[..2 * bytes.len()];
    let _ = encode_to_slice(bytes, text);
    out.extend_from_slice(text)?;
    Ok(())
}

/// Appends the line `at MS`.
pub(crate) fn push_at(out: &mut Vec<u8>, moment: u64) -> Result<(), NoMemory>
    ensures { OnOk result (out.new.items ≡ out.old.items ++ line_text (At moment)) }
{
    push_word_and_number(out, b"at ", moment)?;
    out.push(b'\n')?;
    Ok(())
}

/// Appends the line `open C`.
pub(crate) fn push_open(out: &mut Vec<u8>, conn: u64) -> Result<(), NoMemory>
    ensures { OnOk result (out.new.items ≡ out.old.items ++ line_text (Stepping (Opens conn))) }
{
    push_word_and_number(out, b"open ", conn)?;
    out.push(b'\n')?;
    Ok(())
}

/// Appends the line `data C HEX`.
pub(crate) fn push_data(out: &mut Vec<u8>, conn: u64, bytes: &[u8]) -> Result<(), NoMemory>
    requires { length bytes.now ≤ 64 }
    ensures { OnOk result (out.new.items ≡ out.old.items
        ++ line_text (Stepping (Brings conn bytes.now))) }
{
    push_word_and_number(out, b"data ", conn)?;
    out.push(b' ')?;
    push_digits(out, bytes)?;
    out.push(b'\n')?;
    Ok(())
}

/// Appends the line `shut C`.
pub(crate) fn push_shut(out: &mut Vec<u8>, conn: u64) -> Result<(), NoMemory>
    ensures { OnOk result (out.new.items ≡ out.old.items ++ line_text (Stepping (Shuts conn))) }
{
    push_word_and_number(out, b"shut ", conn)?;
    out.push(b'\n')?;
    Ok(())
}
