//! A handler of a pool's tests.
ghost use Rattle.std.specs.Prelude.{◌≡◌, None, Some};
ghost use Rattle.reactor_model.specs.Turns.{HasTimer, IsNotOfMine};

use demux::PlayEnd;
use ev_base::{Answer, Handle, Mask, Net, NetFailed, Upcall, Why};
use reactor_model::{Act, EventHandler, Turn};
use std::alloc::Global;
use std::sync::Arc;
use std::sync::atomic::{AtomicU64, Ordering};
use std::thread::yield_now;

/// Two flags of two upcalls that wait for each other.
#[derive(Drop)]
pub struct Meeting {
    /// The flag that this upcall raises.
    pub mine: Arc<AtomicU64, Global>,
    /// The flag that it waits for.
    pub other: Arc<AtomicU64, Global>,
    /// How many turns it waits at most.
    pub turns: u64,
}

impl Meeting {
    /// Raises the one flag, and waits until the other is raised, but no more than so many turns. It
    /// tells whether that was so.
    fn meet(&self) -> bool {
        self.mine.store(1, Ordering::SeqCst);
        for _ in 0..self.turns {
            if self.other.load(Ordering::SeqCst) != 0 {
                return true;
            }
            yield_now();
        }
        false
    }
}

/// What a member does at its input.
#[derive(Drop)]
enum Input {
    /// It gives this answer.
    Answers(Answer),
    /// It answers Again so many times, and Keep from then on.
    Counts(u32),
    /// It answers Keep, and stops the reactor.
    Stops,
    /// It answers Keep, and asks for no more reports.
    Masks,
    /// It answers Keep, and offers another for reading.
    Offers,
    /// It meets another upcall, and notes 1 if it did.
    Meets(Box<Meeting>),
    /// It takes so many turns of a generator of numbers, and answers Keep; after so many inputs it
    /// stops the reactor.
    Works {
        /// How many turns it takes.
        turns: u32,
        /// How many inputs are left.
        left: u32,
    },
}

/// A handler of a pool, whose turns at inputs are what it was made for. It answers Keep to each
/// other upcall, and notes 0 unless two upcalls met. It is small, so that to move it costs
/// little of what an event costs.
#[derive(Drop)]
pub struct Member {
    end: PlayEnd,
    input: Input,
}

impl Member {
    /// One that gives this answer to each input.
    pub fn answering(answer: Answer) -> Member {
        Member::with(Input::Answers(answer))
    }

    /// One that answers Again so many times, and Keep from then on.
    pub fn counting(times: u32) -> Member {
        Member::with(Input::Counts(times))
    }

    /// One that stops the reactor.
    pub fn stopping() -> Member {
        Member::with(Input::Stops)
    }

    /// One that asks for no more reports.
    pub fn masking() -> Member {
        Member::with(Input::Masks)
    }

    /// One that offers another, which answers Keep.
    pub fn offering() -> Member {
        Member::with(Input::Offers)
    }

    /// One whose upcalls take so many turns of a generator of numbers each, and which stops the
    /// reactor after so many of them.
    pub fn working(turns: u32, upcalls: u32) -> Member {
        Member::with(Input::Works {
            turns,
            left: upcalls,
        })
    }

    /// One whose upcall meets another.
    pub fn meeting(meeting: Box<Meeting>) -> Member {
        Member::with(Input::Meets(meeting))
    }

    fn with(input: Input) -> Member {
        Member {
            end: PlayEnd::new(),
            input,
        }
    }

    // Its turn at an input.
    fn at_input(&mut self) -> Turn<Member>
        ensures close { result.answer ≡ Answer.Close → IsNotOfMine result.act }
        ensures timer { HasTimer result.act }
    {
        match &mut self.input {
            Input::Answers(answer) => answering(*answer),
            Input::Counts(times) => {
                if *times == 0 {
                    answering(Answer::Keep)
                } else {
                    *times -= 1;
                    answering(Answer::Again)
                }
            }
            Input::Stops => keeping(Act::Stop),
            Input::Masks => keeping(Act::MaskMine(Mask::NONE)),
            Input::Offers => keeping(Act::Install {
                handler: Member::answering(Answer::Keep),
                mask: Mask::READ,
                timer: None,
            }),
            Input::Works { turns, left } => work(*turns, left),
            Input::Meets(meeting) => Turn {
                answer: Answer::Keep,
                note: u64::from(meeting.meet()),
                act: None,
            },
        }
    }
}

// A turn that took so many turns of a generator of numbers; it stops the reactor if none are
// left.
fn work(turns: u32, left: &mut u32) -> Turn<Member>
    ensures close { result.answer ≡ Answer.Close → IsNotOfMine result.act }
    ensures timer { HasTimer result.act }
{
    let number = mixed(turns);
    if *left == 0 {
        return keeping(Act::Stop);
    }
    *left -= 1;
    Turn {
        answer: Answer::Keep,
        note: number,
        act: None,
    }
}

// A number that takes so many turns to find (Marsaglia, Xorshift RNGs).
fn mixed(turns: u32) -> u64 {
    let mut number: u64 = 88_172_645_463_325_252;
    for _ in 0..turns {
        number = next_number(number);
    }
    number
}

/// The next of a row of numbers (Marsaglia, Xorshift RNGs).
pub fn next_number(last: u64) -> u64 {
    let mut number = last;
    number ^= number << 13;
    number ^= number >> 7;
    number ^= number << 17;
    number
}

// A turn with this answer and no act.
fn answering(answer: Answer) -> Turn<Member>
    ensures { (result.answer ≡ answer) × (result.act ≡ None) }
{
    Turn {
        answer,
        note: 0,
        act: None,
    }
}

// A turn that answers Keep, with this act.
fn keeping(act: Act<Member>) -> Turn<Member>
    ensures { (result.answer ≡ Answer.Keep) × (result.act ≡ Some act) }
{
    Turn {
        answer: Answer::Keep,
        note: 0,
        act: Some(act),
    }
}

impl EventHandler for Member {
    ghost use Rattle.test_pool.specs.Members.{member};

    type Note = u64;

    type End = PlayEnd;

    ghost means = { member };

    fn upcall(&mut self, up: Upcall, _now: u64) -> Turn<Member> {
        match up {
            Upcall::Input => self.at_input(),
            _ => answering(Answer::Keep),
        }
    }

    fn attach_to<M: Net<End = PlayEnd>>(
        &mut self,
        net: &mut M,
        handle: Handle,
        mask: Mask,
    ) -> Result<(), NetFailed> {
        net.attach(&mut self.end, handle, mask)
    }

    fn handle_close(self, _why: Why) -> (PlayEnd, u64) {
        let Member { end, input: _ } = self;
        (end, 0)
    }
}
