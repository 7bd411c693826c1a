//! Turns of an end, one after another.
ghost use Rattle.std.specs.Prelude.{◌≡◌, IfOk, true};
ghost use Rattle.ev_base.specs.End.{IsFresh};
ghost use Rattle.script_net.specs.ScriptEnd.{script_end_facts};

use ev_base::{Answer, Host, Upcall, Why};
use reactor_model::{Act, EventHandler, Turn};
use script_net::{ScriptEnd, ScriptHost};
use script_text::parse_script;
use std::alloc::Global;
use std::test::Fail;

/// The listener of a script, whose ends take so many bytes.
pub fn listener_of(alloc: Global, script: &str, room: usize) -> Result<ScriptEnd, Fail>
    ensures listener { IfOk result (λ end. (script_end_facts end).listener ≡ true) }
    ensures fresh { IfOk result (λ end. IsFresh (script_end_facts end)) }
{
    let script = parse_script(alloc, script.as_bytes(), room)?;
    let mut host = ScriptHost::new(Some(script), false);
    match host.listen(alloc, 7000) {
        Ok((_, listener, _)) => Ok(listener),
        Err(_) => Err("the host did not listen".into()),
    }
}

/// Lets what a turn asked for go. A handler that it offered is refused.
pub fn let_go<H: EventHandler<End = ScriptEnd>>(act: Option<Act<H>>)
where
    H::Note: Drop,
{
    match act {
        Some(
            Act::Install {
                handler,
                mask: _mask,
                timer: _timer,
            },
        ) => {
            handler.handle_close(Why::Refused);
        }
        Some(Act::MaskMine(_mask)) => {}
        Some(Act::CancelMine { timer: _timer }) => {}
        Some(Act::Stop) => {}
        None => {}
    }
}

/// Makes an upcall for input. True if it answers Close.
fn closes<H: EventHandler<End = ScriptEnd>>(handler: &mut H) -> bool
where
    H::Note: Drop,
{
    let Turn {
        answer,
        note: _,
        act,
    } = handler.upcall(Upcall::Input, 0);
    let_go(act);
    answer == Answer::Close
}

/// Makes upcalls for input, at most so many, until one answers Close. True if one did.
pub fn make_turns<H: EventHandler<End = ScriptEnd>>(handler: &mut H, most: usize) -> bool
where
    H::Note: Drop,
{
    for _ in 0..most {
        if closes(handler) {
            return true;
        }
    }
    false
}
