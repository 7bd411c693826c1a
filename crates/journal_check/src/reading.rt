//! Whether a journal is legal.

ghost use Rattle.std.specs.Prelude.{◌≡◌, ◌∷◌, ℕ, List, Ok, Err, OnOk};
ghost use Rattle.reactor_journal.specs.declared.entry.Entry.{Entry};
ghost use Rattle.std.specs.BTreeSet.{contains};
ghost use Rattle.std.specs.Ordering.{nat_cmp};
ghost use Rattle.reactor_summary.specs.Summary as S;
ghost use Rattle.journal_check.specs.Fronts.{IsUpToDate};
ghost use Rattle.journal_check.specs.Index.{pair_cmp};
ghost use Rattle.reactor_journal.specs.Follow as F;
ghost use Rattle.journal_check.specs.Refusal.{RefusesAt, IsUnlessNoMemory};

use crate::checker::Checker;
use ev_types::NoMemory;
use reactor_journal::Entry;
use std::alloc::Global;
use std::error::Error;
use std::fmt;

/// Why a journal was refused.
#[derive(Clone, Copy, PartialEq, Eq, Debug)]
pub enum CheckRefused {
    /// The first `at + 1` entries are not legal, and the first `at` are.
    Illegal {
        /// The number of the entry that may not stand there.
        at: u64,
    },
    /// There was no memory for the check. Nothing is said of the journal.
    NoMemory,
}

impl fmt::Display for CheckRefused {
    fn fmt<W: fmt::Write>(&self, f: &mut fmt::Formatter<W>) -> fmt::Result {
        match self {
            CheckRefused::Illegal { at } => write!(f, "entry {at} may not follow"),
            CheckRefused::NoMemory => write!(f, "out of memory"),
        }
    }
}

impl Error for CheckRefused {}

impl From<NoMemory> for CheckRefused {
    ghost use Rattle.journal_check.specs.declared.reading.CheckRefused.TheVariants.{
      NoMemory as WithoutMemory,
    };

    ghost from_gives = { λ _ r. r ≡ WithoutMemory };

    fn from(_: NoMemory) -> CheckRefused {
        CheckRefused::NoMemory
    }
}

/// Whether a timer may come due after the entry.
fn admits_due<N>(entry: &Entry<N>) -> bool
    ensures { (past : List (Entry N)) → result ≡ F.follows_due (entry.now ∷ past) }
{
    match entry {
        Entry::Polled { .. } => true,
        Entry::Due { .. } => true,
        _ => false,
    }
}

/// Whether a report may come after the entry.
fn admits_ready<N>(entry: &Entry<N>) -> bool
    ensures { (past : List (Entry N)) → result ≡ F.follows_ready (entry.now ∷ past) }
{
    match entry {
        Entry::Polled { .. } => true,
        Entry::Due { .. } => true,
        Entry::Ready { .. } => true,
        _ => false,
    }
}

fn read_by<N>(checker: &mut Checker, journal: &[Entry<N>], most: u64) -> Result<(), CheckRefused>
    requires machine { checker.old.machine ≡ S.nothing }
    requires index { IsUpToDate checker.old.machine (contains pair_cmp checker.old.fronts)
        (contains nat_cmp checker.old.closing) }
    ensures ok { OnOk result (F.Legal journal.now most) }
    ensures illegal { (at : ℕ) → result ≡ Err (CheckRefused.Illegal at)
        → RefusesAt journal.now most at }
{
    let mut due = false;
    let mut ready = false;
    for (k, entry) in journal.iter().enumerate() {
        if !checker.may_follow(due, ready, entry, most) {
            return Err(CheckRefused::Illegal { at: k as u64 });
        }
        checker.step(entry)?;
        due = admits_due(entry);
        ready = admits_ready(entry);
    }
    Ok(())
}

fn read<N>(alloc: Global, journal: &[Entry<N>], most: u64) -> Result<(), CheckRefused>
    ensures ok { OnOk result (F.Legal journal.now most) }
    ensures illegal { (at : ℕ) → result ≡ Err (CheckRefused.Illegal at)
        → RefusesAt journal.now most at }
{
    let mut checker = Checker::new(alloc);
    read_by(&mut checker, journal, most)
}

/// Whether the journal is legal if at most `most` handles may be live at once: Ok exactly if
/// it is, and else the number of the first entry that may not follow those before it.
pub fn check<N>(alloc: Global, journal: &[Entry<N>], most: u64) -> Result<(), CheckRefused>
    ensures ok { OnOk result (F.Legal journal.now most) }
    ensures legal { F.Legal journal.now most → IsUnlessNoMemory result (Ok tt) }
    ensures illegal { (at : ℕ) → result ≡ Err (CheckRefused.Illegal at)
        → RefusesAt journal.now most at }
    ensures refused { (at : ℕ) → RefusesAt journal.now most at
        → IsUnlessNoMemory result (Err (CheckRefused.Illegal at)) }
{
    read(alloc, journal, most)
}
