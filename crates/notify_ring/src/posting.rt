// What is posted.
ghost use Rattle.std.specs.Prelude.{◌≡◌, ◌+◌, ◌-◌, ◌*◌, ◌/◌, ◌%◌, ◌^◌, ◌<◌};
ghost use Rattle.ev_types.specs.declared.upcall.Kind.{Kind as KindOf};
ghost use Rattle.notify_ring.specs.Kinds.{kind_code};

use ev_types::{Handle, Kind};

/// One notification.
#[derive(Clone, Copy, PartialEq, Eq, Debug, Drop)]
pub struct Posting {
    /// How many postings of the ring were made before it.
    pub number: u64,
    /// The registration that it is for.
    pub handle: Handle,
    pub kind: Kind,
    /// The number of its poster.
    pub from: u64,
    /// How many postings its poster had made before it.
    pub seq: u64,
}

/// The ring had no place for a posting.
#[derive(Clone, Copy, PartialEq, Eq, Debug, Drop)]
pub struct Full {
    /// How many places were held or in flight when `post` looked: 256 or more.
    pub held: u64,
}

/// What a gate has for a posting of this kind by the poster of this number.
pub(crate) fn gate_of(kind: Kind, from: u64) -> u64
    requires { from < 2 ^ 60 }
    ensures { result ≡ 1 + kind_code kind + 4 * from }
{
    1 + code_of(kind) + 4 * from
}

/// The kind of a posting and the number of its poster, by what its gate has.
pub(crate) fn from_gate(gate: u64) -> (Kind, u64)
    requires { 0 < gate }
    ensures kind { (kind : KindOf) → (gate - 1) % 4 ≡ kind_code kind → result.0 ≡ kind }
    ensures from { result.1 ≡ (gate - 1) / 4 }
{
    let code = gate - 1;
    (kind_of(code % 4), code / 4)
}

fn code_of(kind: Kind) -> u64
    ensures { result ≡ kind_code kind }
{
    match kind {
        Kind::Read => 0,
        Kind::Write => 1,
        Kind::Except => 2,
    }
}

fn kind_of(code: u64) -> Kind
    ensures { (kind : KindOf) → code ≡ kind_code kind → result ≡ kind }
{
    match code {
        0 => Kind::Read,
        1 => Kind::Write,
        _ => Kind::Except,
    }
}
