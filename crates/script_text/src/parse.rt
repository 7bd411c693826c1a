//! The text of a script, line by line.
ghost use Rattle.std.specs.Prelude.{IfOk, IfErr};
ghost use Rattle.script_text.specs.Parsing.{IsScriptOf, RefusesRightly};

use crate::reading::Reading;
use crate::refusal::ScriptRefused;
use crate::words::next_line;
use script_net::Script;
use std::alloc::Global;

/// Reads the text of a script. Each connection has room for `room` bytes that are written to its
/// end.
///
/// `BadScript` names the first line that is none of a script or may not stand where it stands.
pub fn parse_script(alloc: Global, bytes: &[u8], room: usize) -> Result<Script, ScriptRefused>
    ensures script { IfOk result (λ script. IsScriptOf bytes.now room script) }
    ensures refused { IfErr result (λ refused. RefusesRightly bytes.now refused) }
{
    let mut reading = Reading::new(alloc, room);
    let mut rest = bytes;
    let mut line: u64 = 0;
    while !rest.is_empty() {
        let (first, behind) = next_line(rest);
        line += 1;
        if !reading.take(first)? {
            return Err(ScriptRefused::BadScript { line });
        }
        rest = behind;
    }
    Ok(reading.finish()?)
}
