//! Which wait was answered last that nothing can be reported any more.
ghost use Rattle.std.specs.Prelude.{◌≡◌, ◌<◌, ◌^◌};
ghost use Rattle.reactor_core.specs.Marks.{marked};

use ev_base::Waited;

/// The waits that did not fail: how many there were, and the number, from 1, of the last that was
/// answered `Over`, or 0.
#[derive(Clone, Copy, PartialEq, Eq, Debug)]
pub struct WaitMarks {
    pub(crate) made: u64,
    pub(crate) over: u64,
}

/// The marks after one more wait.
pub(crate) fn marked(answer: Waited, marks: WaitMarks) -> WaitMarks
    requires { marks.made < 2 ^ 62 }
    ensures { result ≡ marked answer marks }
{
    let made = marks.made + 1;
    match answer {
        Waited::Over { .. } => WaitMarks { made, over: made },
        Waited::Reports { .. } | Waited::Quiet { .. } | Waited::Failed => WaitMarks {
            made,
            over: marks.over,
        },
    }
}
