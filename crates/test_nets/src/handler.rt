//! A handler whose turns are all the same.
ghost use Rattle.std.specs.Prelude.{◌≡◌};
ghost use Rattle.reactor_model.specs.Turns.{HasTimer, IsNotOfMine, IsTimer};
ghost use Rattle.test_nets.specs.Handlers.{answer_of, input_answer};

use demux::PlayEnd;
use ev_base::{Answer, Handle, Mask, Net, NetFailed, Upcall, Why};
use reactor_model::{Act, EventHandler, Turn};

/// The first delay and the period of the timer of a handler that is offered with one, in
/// milliseconds: it comes due once.
const OFFERED_TIMER: (u64, u64) = (10, 0);

/// What the turn of an input is.
#[derive(Clone, Copy)]
enum InputTurn {
    /// This answer, with no act.
    Answers(Answer),
    /// Keep, and a handler that is offered for reading, with a timer or with none.
    Offers { timed: bool },
    /// Keep, and another mask for itself.
    Masks(Mask),
    /// Keep, and the end of the reactor.
    Stops,
}

/// A handler whose turn is the same at each input, and which answers Keep to each other upcall and
/// asks for nothing there. It notes
/// 0. A handler that it offers answers Keep and asks for nothing.
#[derive(Drop)]
pub struct Steady {
    end: PlayEnd,
    at_input: InputTurn,
}

impl Steady {
    /// One that answers Keep and asks for nothing.
    pub fn new() -> Steady {
        Steady::answering(Answer::Keep)
    }

    /// One that gives this answer to each input, and asks for nothing.
    pub fn answering(answer: Answer) -> Steady {
        Steady::with(InputTurn::Answers(answer))
    }

    /// One that answers Keep, and offers a handler with each input.
    pub fn offering() -> Steady {
        Steady::with(InputTurn::Offers { timed: false })
    }

    /// One that answers Keep, and offers a handler with each input, whose timer comes due once
    /// after 10 milliseconds.
    pub fn offering_timed() -> Steady {
        Steady::with(InputTurn::Offers { timed: true })
    }

    /// One that answers Keep, and asks for this mask with each input.
    pub fn masking(mask: Mask) -> Steady {
        Steady::with(InputTurn::Masks(mask))
    }

    /// One that answers Keep, and stops the reactor with each input.
    pub fn stopping() -> Steady {
        Steady::with(InputTurn::Stops)
    }

    fn with(at_input: InputTurn) -> Steady {
        Steady {
            end: PlayEnd::new(),
            at_input,
        }
    }

    /// What it answers to an input.
    pub fn to_input(&self) -> Answer
        ensures { result ≡ input_answer self.now }
    {
        match self.at_input {
            InputTurn::Answers(answer) => answer,
            InputTurn::Offers { .. } | InputTurn::Masks(_) | InputTurn::Stops => Answer::Keep,
        }
    }
}

/// The timer of a handler that is offered with one or with none.
fn timer_of(timed: bool) -> Option<(u64, u64)>
    ensures { IsTimer result }
{
    if timed { Some(OFFERED_TIMER) } else { None }
}

/// The turn of an input.
fn turn_of(at_input: InputTurn) -> Turn<Steady>
    ensures answer { result.answer ≡ answer_of at_input }
    ensures close { result.answer ≡ Answer.Close → IsNotOfMine result.act }
    ensures timer { HasTimer result.act }
{
    let (answer, act) = match at_input {
        InputTurn::Answers(answer) => (answer, None),
        InputTurn::Offers { timed } => (
            Answer::Keep,
            Some(Act::Install {
                handler: Steady::new(),
                mask: Mask::READ,
                timer: timer_of(timed),
            }),
        ),
        InputTurn::Masks(mask) => (Answer::Keep, Some(Act::MaskMine(mask))),
        InputTurn::Stops => (Answer::Keep, Some(Act::Stop)),
    };
    Turn {
        answer,
        note: 0,
        act,
    }
}

impl EventHandler for Steady {
    ghost use Rattle.test_nets.specs.Handlers.{steady};

    type Note = u64;

    type End = PlayEnd;

    ghost means = { steady };

    fn upcall(&mut self, up: Upcall, _now: u64) -> Turn<Steady> {
        match up {
            Upcall::Input => turn_of(self.at_input),
            _ => Turn {
                answer: Answer::Keep,
                note: 0,
                act: None,
            },
        }
    }

    fn attach_to<M: Net<End = PlayEnd>>(
        &mut self,
        net: &mut M,
        handle: Handle,
        mask: Mask,
    ) -> Result<(), NetFailed> {
        net.attach(&mut self.end, handle, mask)
    }

    fn handle_close(self, _why: Why) -> (PlayEnd, u64) {
        let Steady { end, at_input: _ } = self;
        (end, 0)
    }
}
