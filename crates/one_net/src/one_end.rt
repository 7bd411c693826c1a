//! The end of the one connection, whose bytes come from a source.
ghost use Rattle.std.specs.Prelude.{◌≡◌, ◌≤◌, ◌<◌, ◌-◌, ◌≢◌, ℕ, List, true, false, [], length};
ghost use Rattle.std.specs.Prelude.{Some, None};
ghost use Rattle.ev_base.specs.Terms.{Terms, KeepsOn};

use ev_base::{Got, PeerEnd, Sent, Source, Taken};

/// The end of the connection of number 0, which reads a source, of which it gives so many bytes at
/// most.
///
/// A failing source is a fault of the end too. If `limit` bytes were given, a read asks the
/// source for one byte more. If there is one, the end keeps it, and from then on each read is a
/// fault and asks no more. It never pauses at a read, and it has nowhere to write, so each write
/// pauses. It owns the source, which `into_input` gives back.
#[derive(Drop)]
pub struct OneEnd<S> {
    input: S,
    limit: u64,
    // How many bytes it gave.
    given: u64,
    // The byte past the limit, once it was met.
    extra: Option<u8>,
    // Whether a read of the source failed.
    failed: bool,
    faults: u64,
    reads: u64,
    // What the last read answered.
    last: Option<Got>,
    writes: u64,
    ghost within: { given ≤ limit },
}

impl<S: Source> OneEnd<S> {
    ghost use Rattle.ev_base.specs.End.{IsFresh, EndReads};
    ghost use Rattle.one_net.specs.OneEnd.{input_of, limit_of, count_of, extra_of, failed_of};
    ghost use Rattle.one_net.specs.OneEnd.{one_end_facts, OneReads, TakesAll};
    ghost use Rattle.one_net.specs.OneKeeps.{most_input, StartsAt, OneEndKeeps};

    /// An end that has made no call, over this source and with this limit.
    pub fn new(input: S, limit: u64) -> OneEnd<S>
        ensures fresh { IsFresh (one_end_facts S.facts result) }
        ensures no_listener { (one_end_facts S.facts result).listener ≡ false }
        ensures serial { (one_end_facts S.facts result).serial ≡ Some 0 }
        ensures input { input_of result ≡ input }
        ensures limit { limit_of result ≡ limit }
        ensures count { count_of result ≡ 0 }
        ensures sound { (failed_of result ≡ false) × (extra_of result ≡ []) }
        ensures kept { (t : Terms) → limit ≡ most_input → StartsAt t (S.facts input)
            → OneEndKeeps S.facts t result }
    {
        OneEnd {
            input,
            limit,
            given: 0,
            extra: None,
            failed: false,
            faults: 0,
            reads: 0,
            last: None,
            writes: 0,
        }
    }

    /// Whether a byte past the limit was met.
    pub fn is_too_long(&self) -> bool
        ensures met { result ≡ true → extra_of self.now ≢ [] }
        ensures not_met { result ≡ false → extra_of self.now ≡ [] }
    {
        self.extra.is_some()
    }

    /// Whether a read of the source failed.
    pub fn has_failed(&self) -> bool
        ensures { result ≡ failed_of self.now }
    {
        self.failed
    }

    /// The source.
    pub fn input(&self) -> &S
        ensures { result.now ≡ input_of self.now }
    {
        &self.input
    }

    /// Gives the source back.
    pub fn into_input(self) -> S
        ensures { result ≡ input_of self }
    {
        let OneEnd { input, .. } = self;
        input
    }

    // A read when a byte past the limit was met before: it fails, and the source isn't asked.
    fn refuse(&mut self) -> Got
        requires { extra_of self.old ≢ [] }
        ensures reads { (buffer : List ℕ) → EndReads (one_end_facts S.facts self.old) buffer result
            (one_end_facts S.facts self.new) }
        ensures kept { KeepsOn (OneEndKeeps S.facts) self.old self.new }
        ensures causes { OneReads S.facts self.old result self.new }
        ensures took { TakesAll S.facts self.old self.new }
        ensures within { count_of self.new ≤ limit_of self.new }
        ensures limit { limit_of self.new ≡ limit_of self.old }
        ensures failed { result ≡ Got.Failed }
        ensures input { input_of self.new ≡ input_of self.old }
    {
        self.reads = self.reads.saturating_add(1);
        self.last = Some(Got::Failed);
        self.faults = self.faults.saturating_add(1);
        Got::Failed
    }

    // A read once the end gave as many bytes as it may: it looks whether there is one more.
    fn look_behind(&mut self) -> Got
        requires none { extra_of self.old ≡ [] }
        requires full { count_of self.old ≡ limit_of self.old }
        ensures reads { (buffer : List ℕ) → EndReads (one_end_facts S.facts self.old) buffer result
            (one_end_facts S.facts self.new) }
        ensures kept { KeepsOn (OneEndKeeps S.facts) self.old self.new }
        ensures causes { OneReads S.facts self.old result self.new }
        ensures took { TakesAll S.facts self.old self.new }
        ensures within { count_of self.new ≤ limit_of self.new }
        ensures limit { limit_of self.new ≡ limit_of self.old }
    {
        let mut behind = [0];
        self.reads = self.reads.saturating_add(1);
        match self.input.read(&mut behind) {
            Got::Bytes(_) => {
                self.extra = Some(behind[0]);
                self.last = Some(Got::Failed);
                self.faults = self.faults.saturating_add(1);
                Got::Failed
            }
            Got::Over => {
                self.last = Some(Got::Over);
                Got::Over
            }
            Got::Failed => {
                self.failed = true;
                self.last = Some(Got::Failed);
                self.faults = self.faults.saturating_add(1);
                Got::Failed
            }
            Got::Pause => unreachable!(),
        }
    }

    // A read of no more bytes than may still be given.
    fn pass_on(&mut self, part: &mut [u8]) -> Got
        requires none { extra_of self.old ≡ [] }
        requires some { 0 < length part.old }
        requires room { length part.old ≤ limit_of self.old - count_of self.old }
        ensures reads { EndReads (one_end_facts S.facts self.old) part.new result
            (one_end_facts S.facts self.new) }
        ensures kept { KeepsOn (OneEndKeeps S.facts) self.old self.new }
        ensures causes { OneReads S.facts self.old result self.new }
        ensures took { TakesAll S.facts self.old self.new }
        ensures within { count_of self.new ≤ limit_of self.new }
        ensures limit { limit_of self.new ≡ limit_of self.old }
    {
        self.reads = self.reads.saturating_add(1);
        match self.input.read(part) {
            Got::Bytes(count) => {
                self.given += count as u64;
                self.last = Some(Got::Bytes(count));
                Got::Bytes(count)
            }
            Got::Over => {
                self.last = Some(Got::Over);
                Got::Over
            }
            Got::Failed => {
                self.failed = true;
                self.last = Some(Got::Failed);
                self.faults = self.faults.saturating_add(1);
                Got::Failed
            }
            Got::Pause => unreachable!(),
        }
    }
}

impl<S: Source> PeerEnd for OneEnd<S> {
    ghost use Rattle.ev_base.specs.End.{EndReads, EndWrites};
    ghost use Rattle.one_net.specs.OneEnd.{input_of, limit_of, count_of, extra_of, failed_of};
    ghost use Rattle.one_net.specs.OneEnd.{one_end_facts, OneReads, TakesAll};
    ghost use Rattle.one_net.specs.OneKeeps.{OneEndKeeps};
    ghost use Rattle.one_net.specs.StoryOfEnd.{keeps_its_story};

    ghost tells = { one_end_facts S.facts };

    ghost keeps = { OneEndKeeps S.facts };

    fn is_listener(&self) -> bool {
        false
    }

    fn read(&mut self, buf: &mut [u8]) -> Got
        requires reader { (one_end_facts S.facts self.old).listener ≡ false }
        requires room { 0 < length buf.old }
        ensures reads { EndReads (one_end_facts S.facts self.old) buf.new result
            (one_end_facts S.facts self.new) }
        ensures kept { KeepsOn (OneEndKeeps S.facts) self.old self.new }
        ensures causes { OneReads S.facts self.old result self.new }
        ensures took { TakesAll S.facts self.old self.new }
        ensures within { count_of self.new ≤ limit_of self.new }
        ensures limit { limit_of self.new ≡ limit_of self.old }
        ensures refused { extra_of self.old ≢ [] → (result ≡ Got.Failed)
            × (input_of self.new ≡ input_of self.old) }
    {
        if self.extra.is_some() {
            return self.refuse();
        }
        let room = self.limit - self.given;
        if room == 0 {
            return self.look_behind();
        }
        let count = room.min(buf.len() as u64) as usize;
        self.pass_on(&mut buf[..count])
    }

    fn write(&mut self, piece: &[u8]) -> Sent
        requires writer { (one_end_facts S.facts self.old).listener ≡ false }
        requires some { 0 < length piece.now }
        ensures writes { EndWrites (one_end_facts S.facts self.old) piece.now result
            (one_end_facts S.facts self.new) }
        ensures kept { KeepsOn (OneEndKeeps S.facts) self.old self.new }
        ensures pauses { result ≡ Sent.Pause }
        ensures limit { limit_of self.new ≡ limit_of self.old }
        ensures input { input_of self.new ≡ input_of self.old }
        ensures count { count_of self.new ≡ count_of self.old }
        ensures extra { extra_of self.new ≡ extra_of self.old }
        ensures failed { failed_of self.new ≡ failed_of self.old }
    {
        self.writes = self.writes.saturating_add(1);
        Sent::Pause
    }

    // It is no listener, so no run makes this call; it finds no connection, and changes nothing.
    fn accept(&mut self) -> Taken<OneEnd<S>>
        ensures pauses { result ≡ Taken.Pause }
        ensures same { self.new ≡ self.old }
    {
        Taken::Pause
    }

    ghost keeps_story = { keeps_its_story S.facts };
}
