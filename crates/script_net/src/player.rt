//! How a net plays the groups of a script.
ghost use Rattle.std.specs.Prelude.{◌≡◌, ◌≤◌, ◌<◌, ◌+◌, ◌-◌, ◌++◌, ◌∷◌, [], List, length, drop};
ghost use Rattle.std.specs.Prelude.{vec_len, vec_capacity, if◌then◌else◌, Some, None, false};
ghost use Rattle.ev_base.specs.Terms as terms;
ghost use Rattle.ev_base.specs.Playing.{Playing, given, most_reports, answer_at, is_late, time_up};
ghost use Rattle.script_net.specs.Player.{Stands, GivesHeld, GivesGroup, PlayerWaits};

use crate::script::{End, Group};
use crate::seats::Seats;
use crate::sorting::sort_out;
use ev_base::{Report, Waited};

/// The groups of a script, the moment and the steps that are held back. The steps of a group whose
/// ends are gone may be held too: they are dropped once a wait comes to them. A step that nobody
/// wants is looked at again only if an end was attached or a mask set since.
#[derive(Drop)]
pub(crate) struct Player {
    pub(crate) groups: Vec<Group>,
    // The number of the next group, and the present moment.
    pub(crate) next: usize,
    pub(crate) now: u64,
    // The steps that are held back: those that nobody wanted when they were looked at, and after
    // them those of the other list from a place on.
    pub(crate) unwanted: Vec<End>,
    pub(crate) held: Vec<End>,
    pub(crate) first: usize,
    // Whether an end was attached or a mask set since steps were looked at.
    pub(crate) changed: bool,
    // Room for the steps that a wait passes over.
    pub(crate) passed: Vec<End>,
    // The reports of the last wait.
    pub(crate) reports: Vec<Report>,
    pub(crate) seats: Seats,
}

impl Player {
    // Has all steps that are held back looked at again, if an end was attached or a mask set
    // since they were.
    fn look_again(&mut self)
        requires { (p : Playing) × Stands self.old p }
        ensures stands { (p : Playing) → Stands self.old p → Stands self.new p }
        ensures fresh { self.new.changed ≡ false }
        ensures reports { self.new.reports ≡ self.old.reports }
        ensures rest { (self.new.groups ≡ self.old.groups) × (self.new.seats ≡ self.old.seats) }
    {
        if !self.changed {
            return;
        }
        self.first = put_back(&mut self.held, self.first, &self.unwanted);
        self.unwanted.clear();
        self.changed = false;
    }

    // Reports held steps that can be reported now, in order.
    fn give_held(&mut self)
        requires stands { (p : Playing) × Stands self.old p }
        requires no_report { self.old.reports.items ≡ [] }
        ensures gives { (p : Playing) → Stands self.old p → GivesHeld p self.new }
        ensures rest { (self.new.groups ≡ self.old.groups) × (self.new.seats ≡ self.old.seats) }
    {
        self.look_again();
        self.give_fresh();
    }

    // Reports steps that can be reported now, of those that are still to be looked at.
    fn give_fresh(&mut self)
        requires stands { (p : Playing) × Stands self.old p }
        requires fresh { self.old.changed ≡ false }
        requires no_report { self.old.reports.items ≡ [] }
        ensures gives { (p : Playing) → Stands self.old p → GivesHeld p self.new }
        ensures rest { (self.new.groups ≡ self.old.groups) × (self.new.seats ≡ self.old.seats) }
    {
        let stop = sort_out(
            &self.seats,
            &self.held,
            self.first,
            &mut self.reports,
            &mut self.passed,
        );
        hold(&mut self.unwanted, &self.passed);
        self.first = stop;
        self.passed.clear();
    }

    // Lets the next group come: reports its steps at ends that are attached and want them, and
    // holds back the others.
    fn give_group(&mut self)
        requires stands { (p : Playing) × Stands self.old p }
        requires some { self.old.next < length self.old.groups.items }
        requires no_report { self.old.reports.items ≡ [] }
        ensures gives { (p : Playing) (group : terms.Group) (groups : List terms.Group)
            → Stands self.old p → p.groups ≡ group ∷ groups → GivesGroup p group groups self.new }
        ensures rest { (self.new.groups ≡ self.old.groups) × (self.new.seats ≡ self.old.seats) }
    {
        let group = &self.groups[self.next];
        let stop = sort_out(
            &self.seats,
            &group.steps,
            0,
            &mut self.reports,
            &mut self.passed,
        );
        hold(&mut self.held, &self.passed);
        hold(&mut self.held, &group.steps[stop..]);
        self.now = group.moment;
        self.next += 1;
        self.passed.clear();
    }

    // Waits if no held step can be reported.
    fn wait_for_group(&mut self, most_ms: Option<u64>) -> Waited
        requires stands { (p : Playing) × Stands self.old p }
        requires no_report { self.old.reports.items ≡ [] }
        ensures waits { (p : Playing) → Stands self.old p → given p.seats most_reports p.held ≡ []
            → PlayerWaits p most_ms result self.new }
        ensures rest { (self.new.groups ≡ self.old.groups) × (self.new.seats ≡ self.old.seats) }
    {
        if self.next >= self.groups.len() {
            return Waited::Over { now: self.now };
        }
        let moment = self.groups[self.next].moment;
        if let Some(now) = time_is_up(most_ms, self.now, moment) {
            self.now = now;
            return Waited::Quiet { now };
        }
        self.give_group();
        answer_at(self.now, &self.reports)
    }

    /// Waits as the rules of scripts say.
    pub(crate) fn wait(&mut self, most_ms: Option<u64>) -> Waited
        requires { (p : Playing) × Stands self.old p }
        ensures waits { (p : Playing) → Stands self.old p → PlayerWaits p most_ms result self.new }
        ensures rest { (self.new.groups ≡ self.old.groups) × (self.new.seats ≡ self.old.seats) }
    {
        self.reports.clear();
        self.give_held();
        if self.reports.is_empty() {
            self.wait_for_group(most_ms)
        } else {
            answer_at(self.now, &self.reports)
        }
    }
}

// Puts steps in front of those from a place on, where there were others before, and tells the place
// of the first.
fn put_back(held: &mut [End], stop: usize, passed: &[End]) -> usize
    requires few { length passed.now ≤ stop }
    requires stops { stop ≤ length held.old }
    ensures first { result ≡ stop - length passed.now }
    ensures held { drop result held.new ≡ passed.now ++ drop stop held.old }
{
    let first = stop - passed.len();
    held[first..stop].copy_from_slice(passed);
    first
}

// Holds back some steps more.
fn hold(held: &mut Vec<End>, steps: &[End])
    requires { vec_len held.old + length steps.now ≤ vec_capacity held.old }
    ensures held { held.new.items ≡ held.old.items ++ steps.now }
    ensures room { vec_capacity held.old ≤ vec_capacity held.new }
{
    match held.extend_from_slice(steps) {
        Ok(()) => {}
        Err(_) => unreachable!(),
    }
}

// The answer at a moment with these reports.
fn answer_at(now: u64, reports: &[Report]) -> Waited
    ensures { result ≡ answer_at now reports.now }
{
    if reports.is_empty() {
        Waited::Quiet { now }
    } else {
        Waited::Reports {
            now,
            count: reports.len(),
        }
    }
}

// The moment at which a wait is over before a later one comes, if it is.
fn time_is_up(most_ms: Option<u64>, now: u64, moment: u64) -> Option<u64>
    requires { now ≤ moment }
    ensures { result ≡ (if is_late most_ms now moment then Some (time_up most_ms now) else None) }
{
    let most = most_ms?;
    if most < moment - now {
        Some(now + most)
    } else {
        None
    }
}
