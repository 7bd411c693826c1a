//! The run of the command.
ghost use Rattle.std.specs.Prelude.{◌≡◌, ◌≤◌, ◌<◌, ◌+◌, ◌++◌, ◌∷◌, [], ℕ, List, true, false};
ghost use Rattle.std.specs.Prelude.{length};
ghost use Rattle.std.specs.Prelude.{vec_len, OnOk, OnErr, IfOk, IfSome, IfNone};
ghost use Rattle.ev_base.specs.Source.{SourceFacts};
ghost use Rattle.ev_base.specs.Sink.{SinkFacts};
ghost use Rattle.sink_buffer.specs.Gathers.{is_broken};
ghost use Rattle.module_stream.specs.Progress.{Gives};
ghost use Rattle.bounded_input.specs.Reading.{limit_of};
ghost use Rattle.cmd_display.specs.Displays.{Displays};
ghost use Rattle.cmd_display.specs.Windows.{rest_of, Windows, Fills, Grows};
ghost use Rattle.cmd_display.specs.Endings.{ending_of, format_gives, separate_gives};
ghost use Rattle.cmd_display.specs.Shown as S;
ghost use Rattle.cmd_display.specs.Shown.{IsShowing, HasCut, ReadLeaves, Cuts, Stops};
ghost use Rattle.cmd_display.specs.Pipelines.{Shows};
ghost use Rattle.message_block.specs.Messages.{MessageState};
ghost use Rattle.cdr_record.specs.Grammar.{first_of};
ghost use Rattle.cdr_record.specs.declared.grammar.First.TheVariants as first;

use crate::pipeline::Pipeline;
use crate::window::{Filled, Window};
use cdr_record::laws::{decode_cuts, one_is_a_record};
use cdr_record::{First, first_in};
use ev_base::{NoMemory, Sink, Source};
use message_block::{Block, Message};
use module_stream::{FormatTask, Messages, SeparateTask, Task, formats_what_spells_a_record};
use std::alloc::Global;
use std::sync::Wait;
use std::thread::Threads;

/// How many records are put together at most.
const TOGETHER: usize = 64;

/// How displaying the records of an input ended. Of several faults it is the one that stands first
/// here.
#[derive(Clone, Copy, PartialEq, Eq, Debug)]
pub enum DisplayEnd {
    /// All records of the input were written, and nothing was left after them.
    Done,
    /// A read failed.
    ReadFault,
    /// A write failed, after which nothing was written.
    WriteFault,
    /// There was no memory for a record or its text.
    NoMemory,
    /// The record whose first byte has this offset is bad or unfinished.
    BadRecord {
        /// The offset in bytes.
        at: u64,
    },
    /// As many bytes as the limit were read, and one more was there.
    TooLong,
}

/// What displaying the records of an input leaves.
#[derive(Drop)]
pub struct Displayed<S, K> {
    /// How it ended.
    pub end: DisplayEnd,
    /// The source that was handed in.
    pub input: S,
    /// The sink that was handed in.
    pub output: K,
}

/// Why no more records are read.
#[derive(Clone, Copy, PartialEq, Eq, Debug)]
enum Stop {
    /// The end of the input was found.
    Over,
    /// A bad record stands first.
    Bad,
    /// A read failed.
    Failed,
    /// One byte more than the limit was there.
    TooLong,
    /// There was no memory.
    NoMemory,
    /// A write failed.
    Broken,
}

/// What cutting off the records that are there came to.
#[derive(Clone, Copy, PartialEq, Eq, Debug)]
enum Cut {
    /// More bytes are needed.
    More,
    /// A bad record stands first.
    Bad,
    /// There was no memory.
    NoMemory,
}

/// Writes the text of each record of an input and a line feed, in order. At most `limit` bytes of
/// the input are read. The bytes of each record are a message, which goes through a task that
/// formats it and one that ends it with a line feed; both run on threads of their own, and are
/// finished whatever comes.
pub fn display<R: Threads + Wait + Copy + Send + 'static, S: Source, K: Sink>(
    rt: &R,
    alloc: Global,
    input: S,
    output: K,
    limit: u64,
) -> Displayed<S, K>
    ensures { Displays limit (S.facts input) (K.facts output) (S.facts result.input)
        (K.facts result.output) result.end }
{
    let window = Window::new(alloc, input, limit);
    let format = FormatTask::new(alloc);
    let separate = SeparateTask::new(alloc);
    match Pipeline::begin(rt, alloc, format, separate, output) {
        Ok(pipeline) => run(rt, alloc, window, pipeline),
        Err((output, _)) => Displayed {
            end: DisplayEnd::NoMemory,
            input: window.into_input(),
            output,
        },
    }
}

/// Shows all records of a window, and ends the tasks.
fn run<R: Threads + Wait, S: Source, K: Sink>(
    rt: &R,
    alloc: Global,
    window: Window<S>,
    pipeline: Pipeline<FormatTask, SeparateTask, K>,
) -> Displayed<S, K>
    ensures { (i : SourceFacts) (o : SinkFacts) → IsShowing S.facts ⟦<FormatTask as Task>⟧.gives
        ⟦<SeparateTask as Task>⟧.gives K.facts i format_gives separate_gives o window pipeline
        → Displays (limit_of window.input) i o (S.facts result.input) (K.facts result.output)
        result.end }
{
    decode_cuts();
    formats_what_spells_a_record();
    let (mut window, mut pipeline) = (window, pipeline);
    let (stop, all) = show(rt, alloc, &mut window, &mut pipeline);
    let (lines, whole) = pipeline.end(rt, all);
    let end = ending(
        stop,
        lines.is_broken(),
        whole,
        window.place(),
        window.rest().is_empty(),
    );
    Displayed {
        end,
        input: window.into_input(),
        output: lines.into_output(),
    }
}

/// How it ended, by why no more records were read, whether a write failed, whether all came out of
/// the tasks, how many bytes were cut, and whether none is left after them.
fn ending(stop: Stop, broken: bool, whole: bool, place: u64, none_left: bool) -> DisplayEnd
    requires { stop ≡ Stop.Broken → broken ≡ true }
    ensures { result ≡ ending_of stop broken whole place none_left }
{
    match stop {
        Stop::Failed => DisplayEnd::ReadFault,
        _ if broken => DisplayEnd::WriteFault,
        _ if !whole => DisplayEnd::NoMemory,
        Stop::Over if none_left => DisplayEnd::Done,
        Stop::Over | Stop::Bad => DisplayEnd::BadRecord { at: place },
        Stop::TooLong => DisplayEnd::TooLong,
        Stop::NoMemory => DisplayEnd::NoMemory,
        Stop::Broken => unreachable!(),
    }
}

/// Reads an input to its end, and puts the message of each record into a pipeline. It tells why it
/// stopped, and whether every message was put.
fn show<R: Wait, S: Source, F: Task + Send + 'static, G: Task + Send + 'static, K: Sink>(
    rt: &R,
    alloc: Global,
    window: &mut Window<S>,
    pipeline: &mut Pipeline<F, G, K>,
) -> (Stop, bool)
    ensures leaves { (i : SourceFacts) (first second : Gives) (o : SinkFacts)
        → IsShowing S.facts F.gives G.gives K.facts i first second o window.old pipeline.old
        → ReadLeaves S.facts F.gives G.gives K.facts i first second o result.0 result.1 window.new
        pipeline.new }
    ensures limit { limit_of window.new.input ≡ limit_of window.old.input }
    ensures broken { result.0 ≡ Stop.Broken → is_broken pipeline.new.second.lines ≡ true }
{
    loop {
        match put_records(rt, alloc, window, pipeline) {
            Cut::More => {}
            Cut::Bad => return (Stop::Bad, true),
            Cut::NoMemory => return (Stop::NoMemory, false),
        }
        pipeline.flush();
        if pipeline.is_broken() {
            return (Stop::Broken, true);
        }
        match read_on(window, pipeline) {
            Filled::More => {}
            Filled::Over => return (Stop::Over, true),
            Filled::Failed => return (Stop::Failed, true),
            Filled::TooLong => return (Stop::TooLong, true),
            Filled::NoMemory => return (Stop::NoMemory, true),
        }
    }
}

/// Reads on, which is not done once a write has failed.
fn read_on<S: Source, F: Task, G: Task, K>(
    window: &mut Window<S>,
    pipeline: &Pipeline<F, G, K>,
) -> Filled
    requires whole { is_broken pipeline.now.second.lines ≡ false }
    ensures fills { (i : SourceFacts) (cut : List ℕ) → Windows S.facts i window.old cut
        → Fills S.facts i cut window.old result window.new }
    ensures grows { Grows window.old result window.new }
    ensures limit { limit_of window.new.input ≡ limit_of window.old.input }
{
    let _ = pipeline;
    window.fill()
}

/// Cuts off the records that are there, and puts the message of each into a pipeline.
fn put_records<R: Wait, S: Source, F: Task + Send + 'static, G: Task + Send + 'static, K: Sink>(
    rt: &R,
    alloc: Global,
    window: &mut Window<S>,
    pipeline: &mut Pipeline<F, G, K>,
) -> Cut
    ensures cuts { (i : SourceFacts) (first second : Gives) (o : SinkFacts)
        → IsShowing S.facts F.gives G.gives K.facts i first second o window.old pipeline.old
        → Cuts S.facts F.gives G.gives K.facts i first second o result window.new pipeline.new }
    ensures input { window.new.input ≡ window.old.input }
{
    loop {
        let (messages, cut) = cut_records(alloc, window, pipeline);
        match pipeline.put_all(rt, Messages::new(messages)) {
            Ok(()) => {}
            Err(NoMemory) => return Cut::NoMemory,
        }
        if let Some(cut) = cut {
            return cut;
        }
    }
}

/// Cuts off some of the records that are there, and gives the message of each, and why there are no
/// more, unless there are as many as are put together.
fn cut_records<S: Source, F: Task + Send + 'static, G: Task + Send + 'static, K: Sink>(
    alloc: Global,
    window: &mut Window<S>,
    pipeline: &mut Pipeline<F, G, K>,
) -> (Vec<Message>, Option<Cut>)
    ensures cut { (i : SourceFacts) (put : List MessageState) → HasCut S.facts i put window.old
        → HasCut S.facts i (put ++ result.0.items) window.new }
    ensures stops { IfSome result.1 (λ why. Stops why window.new) }
    ensures shows { (first second : Gives) (o : SinkFacts) (put : List MessageState)
        → Shows F.gives G.gives K.facts first second o put pipeline.old
        → Shows F.gives G.gives K.facts first second o put pipeline.new }
    ensures few { vec_len result.0 ≤ 64 }
    ensures input { window.new.input ≡ window.old.input }
    ensures shorter { IfNone result.1 (length (rest_of window.new) < length (rest_of window.old)) }
{
    let mut messages = pipeline.list();
    while messages.len() < TOGETHER {
        if messages.reserve(TOGETHER).is_err() {
            return (messages, Some(Cut::NoMemory));
        }
        match first_in(window.rest()) {
            First::More => return (messages, Some(Cut::More)),
            First::Bad(_) => return (messages, Some(Cut::Bad)),
            First::One(count) => match cut_record(alloc, window, pipeline, count) {
                Ok(message) => messages.push(message).unwrap(),
                Err(NoMemory) => return (messages, Some(Cut::NoMemory)),
            },
        }
    }
    (messages, None)
}

/// Cuts off the record of so many bytes that stands first, and gives its message. After `NoMemory`
/// the window is as before.
fn cut_record<S: Source, F: Task + Send + 'static, G: Task + Send + 'static, K: Sink>(
    alloc: Global,
    window: &mut Window<S>,
    pipeline: &mut Pipeline<F, G, K>,
    count: usize,
) -> Result<Message, NoMemory>
    requires { first_of (rest_of window.old) ≡ first.One count }
    ensures cut { (i : SourceFacts) (put : List MessageState) → HasCut S.facts i put window.old
        → IfOk result (λ message. HasCut S.facts i (put ++ message ∷ []) window.new) }
    ensures unchanged { OnErr result (window.new ≡ window.old) }
    ensures shows { (first second : Gives) (o : SinkFacts) (put : List MessageState)
        → Shows F.gives G.gives K.facts first second o put pipeline.old
        → Shows F.gives G.gives K.facts first second o put pipeline.new }
    ensures input { window.new.input ≡ window.old.input }
    ensures shorter { OnOk result (length (rest_of window.new) < length (rest_of window.old)) }
{
    one_is_a_record();
    let message = message_of(alloc, pipeline.spare(), &window.rest()[..count])?;
    window.skip(count);
    Ok(message)
}

/// The bytes of a record as a message of one block, in the memory of another if there is one.
fn message_of(alloc: Global, spare: Option<Message>, bytes: &[u8]) -> Result<Message, NoMemory>
    requires { length bytes.now ≤ 1048576 }
    ensures { IfOk result (λ message. message ≡ S.message_of bytes.now) }
{
    if let Some(mut message) = spare {
        message.rewrite(bytes, 0)?;
        return Ok(message);
    }
    let block = Block::from_vec(Vec::from_slice(alloc, bytes)?);
    match Message::new(alloc, block, 0) {
        Ok(message) => Ok(message),
        Err((_, refused)) => Err(refused),
    }
}
