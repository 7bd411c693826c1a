//! The live handles, by number.

ghost use Rattle.std.specs.Prelude.{◌≡◌, ◌<◌, ◌==◌, ◌&&◌, ◌++◌, ◌∷◌, [], not, map, filter, true};
ghost use Rattle.std.specs.Prelude.{false, OnOk, ℕ, List, Bool, None, IfSome, if◌then◌else◌};
ghost use Rattle.std.specs.List.{list_any};
ghost use Rattle.std.specs.Map.{values_of};
ghost use Rattle.reactor_journal.specs.Past as P;
ghost use Rattle.reactor_summary.specs.Summary as S;
ghost use Rattle.reactor_summary.specs.Tells.{Each};
ghost use Rattle.reactor_summary.specs.declared.parts.LiveHandle.{LiveHandle};
ghost use Rattle.journal_check.specs.Numbered.{handle_number, IsNumbered, IsTheOne, passes};

use ev_types::{Handle, Kind, Mask, NoMemory};
use number_map::NumberMap;
use reactor_summary::{LiveHandle, has_kind};
use std::alloc::Global;
use std::marker::Model;

/// The live handles, each at its number.
#[derive(Drop)]
pub struct Handles {
    live: NumberMap<LiveHandle>,
}

impl Model for Handles {
    ghost Value = { List LiveHandle };

    ghost view = { λ t. values_of t.live.entries };

    ghost invariant = { λ t. IsNumbered handle_number t.live.entries };
}

impl Handles {
    /// None.
    pub fn new(alloc: Global) -> Handles
        ensures { result ≡ [] }
    {
        Handles {
            live: NumberMap::new(alloc),
        }
    }

    fn get(&self, handle: Handle) -> Option<LiveHandle>
        ensures asked { (q : LiveHandle → Bool) → list_any (λ h. h.handle.0 == handle.0 && q h)
            self.now ≡ passes q result }
        ensures found { IfSome result (IsTheOne handle.0 self.now) }
        ensures none { result ≡ None → list_any (λ h. handle.0 == h.handle.0) self.now ≡ false }
    {
        self.live.get(handle.0)
    }

    /// Whether the handle is alive.
    pub fn is_alive(&self, handle: Handle) -> bool
        ensures { result ≡ list_any (λ h. h.handle.0 == handle.0 && h.alive) self.now }
    {
        match self.get(handle) {
            Some(h) => h.alive,
            None => false,
        }
    }

    /// Whether it is alive and suspended.
    pub fn is_suspended(&self, handle: Handle) -> bool
        ensures { result ≡ list_any (λ h. h.handle.0 == handle.0 && (h.alive && h.suspended))
            self.now }
    {
        match self.get(handle) {
            Some(h) => h.alive && h.suspended,
            None => false,
        }
    }

    /// Whether it is alive and not suspended.
    pub fn is_resumed(&self, handle: Handle) -> bool
        ensures { result ≡ list_any (λ h. h.handle.0 == handle.0 && (h.alive && not h.suspended))
            self.now }
    {
        match self.get(handle) {
            Some(h) => h.alive && !h.suspended,
            None => false,
        }
    }

    /// Whether it is alive and wants reports of the kind.
    pub fn is_wanted(&self, handle: Handle, kind: Kind) -> bool
        ensures { result ≡ list_any (λ h. h.handle.0 == handle.0
            && (h.alive && P.has_kind h.mask kind)) self.now }
    {
        match self.get(handle) {
            Some(h) => h.alive && has_kind(h.mask, kind),
            None => false,
        }
    }

    /// Whether it is live and not alive.
    pub fn is_over(&self, handle: Handle) -> bool
        ensures { result ≡ list_any (λ h. h.handle.0 == handle.0 && not h.alive) self.now }
    {
        match self.get(handle) {
            Some(h) => !h.alive,
            None => false,
        }
    }

    /// Adds a handle. After an Err nothing changed.
    pub fn push(&mut self, h: LiveHandle) -> Result<(), NoMemory>
        ensures { Each (λ g. g.handle.0 < h.handle.0) self.old
            → OnOk result (self.new ≡ self.old ++ h ∷ []) }
    {
        self.live.insert(h.handle.0, h)?;
        Ok(())
    }

    /// Puts a handle in the place of the one of its number.
    fn put(&mut self, h: LiveHandle)
        requires { list_any (λ g. h.handle.0 == g.handle.0) self.old ≡ true }
        ensures { self.new ≡ map (λ g. if h.handle.0 == g.handle.0 then h else g) self.old }
    {
        let _ = self.live.insert(h.handle.0, h);
    }

    /// Sets the mask of the handle.
    pub fn set_mask(&mut self, handle: Handle, mask: Mask)
        ensures { self.new ≡ map (S.with_mask handle.0 mask) self.old }
    {
        if let Some(h) = self.get(handle) {
            self.put(LiveHandle { mask, ..h });
        }
    }

    /// Suspends the handle, or resumes it.
    pub fn set_suspended(&mut self, handle: Handle, suspended: bool)
        ensures { self.new ≡ map (S.with_suspended handle.0 suspended) self.old }
    {
        if let Some(h) = self.get(handle) {
            self.put(LiveHandle { suspended, ..h });
        }
    }

    /// Ends the life of the handle.
    pub fn end_life(&mut self, handle: Handle)
        ensures { self.new ≡ map (S.with_end (S.of_handle handle)) self.old }
    {
        if let Some(h) = self.get(handle) {
            self.put(LiveHandle { alive: false, ..h });
        }
    }

    /// Takes the handle away.
    pub fn close(&mut self, handle: Handle)
        ensures { self.new ≡ filter (λ h. not (handle.0 == h.handle.0)) self.old }
    {
        let _ = self.live.remove(handle.0);
    }
}
