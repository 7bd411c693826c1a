//! A replay as the words of a line ask.
use cmd_line::Command;
use cmd_replay::{Played, replay};
use ev_base::{MemSink, SteadySource};
use reactor_model::DropVolumes;
use std::alloc::{AllocError, Global};
use std::sync::Wait;
use std::test::Fail;
use std::thread::Threads;

/// The words of a line, which are parted by one space.
fn words(alloc: Global, line: &str) -> Result<Vec<String>, AllocError> {
    let mut words = Vec::new(alloc);
    for word in line.split(' ') {
        words.push(String::from_str(alloc, word)?)?;
    }
    Ok(words)
}

/// Replays a script as a line asks, into a sink with room for so many bytes.
pub(crate) fn replay_line<R: Threads + Wait + Sync>(
    rt: &R,
    alloc: Global,
    line: &str,
    script: Vec<u8>,
    room: usize,
) -> Result<Played<MemSink, DropVolumes>, Fail> {
    let Some(Command::Replay(options)) = Command::of(alloc, &words(alloc, line)?)? else {
        return Err("the words do not call a replay".into());
    };
    let output = MemSink::new(alloc, room, None).map_err(|_| Fail::from("no room"))?;
    let input = SteadySource::new(script);
    Ok(replay(rt, alloc, options, input, output, DropVolumes, 1 << 24).played)
}
