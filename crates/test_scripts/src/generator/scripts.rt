//! Generated scripts.

ghost use Rattle.std.specs.Prelude.{◌≤◌};

use crate::asserts::assert_same;
use cdr_record::Bytes;
use script_generator::gen_script;
use script_text::parse_script;
use std::alloc::Global;
use std::test::Fail;

/// The first rounds of one connection and seed 0.
const BEGINNING: &[u8] =
    b"open 0\nat 0\ndata 0 0000000000\ndata 0 00001500000001000003e800000000000000000000000100\n\
      at 1\ndata 0 010101011c\n";

/// Its last lines.
const ENDING: &[u8] = b"at 124\ndata 0 007c7c7c00\n\
      data 0 00003100000008000003e80000007c000000000000001d75767778797a61626\
      36465666768696a6b6c6d6e6f7071727374757600\nshut 0\n";

fn generated(alloc: Global, n: u64, seed: u64) -> Result<Bytes, Fail>
    requires some { 1 ≤ n }
    requires within { n ≤ 1000 }
    requires seed { seed ≤ 4294967295 }
{
    gen_script(alloc, n, seed).map_err(|_| Fail::from("no memory"))
}

#[test]
fn has_the_lines_of_the_row(rt: HostRuntime) -> Result<(), Fail> {
    let text = generated(rt.alloc(), 1, 0)?;
    let text = text.as_slice();
    assert_same(&rt, text.len(), 14_849);
    assert!(rt; text.starts_with(BEGINNING));
    assert!(rt; text.ends_with(ENDING));
    Ok(())
}

// Whether the text of so many connections and a seed is read as a script.
fn is_read(alloc: Global, n: u64, seed: u64) -> Result<bool, Fail>
    requires some { 1 ≤ n }
    requires within { n ≤ 1000 }
    requires seed { seed ≤ 4294967295 }
{
    let text = generated(alloc, n, seed)?;
    Ok(parse_script(alloc, text.as_slice(), 0).is_ok())
}

#[test]
fn is_read_as_a_script(rt: HostRuntime) -> Result<(), Fail> {
    assert!(rt; is_read(rt.alloc(), 1, 0)?);
    assert!(rt; is_read(rt.alloc(), 3, 7)?);
    assert!(rt; is_read(rt.alloc(), 2, 4_294_967_295)?);
    Ok(())
}
