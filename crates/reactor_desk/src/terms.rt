//! What a desk starts with. Contracts alone speak of it.
ghost use Rattle.atomic_table.specs.Seated.{TableId, table_id_coded};
ghost use Rattle.ev_base.specs.Codes.{terms_coded};
ghost use Rattle.ev_base.specs.Terms.{Terms};
ghost use base.Fml.{ftrue};

use std::marker::Model;

/// The terms of a desk: those of its run, which ring its drainer belongs to, how many entries its
/// history had when it was made, and how many entries a volume has at least.
pub struct DeskTerms {
    pub found: u64,
    pub volume: u64,
    pub ghost run: { Terms } by { terms_coded },
    pub ghost ring: { TableId } by { table_id_coded },
}

impl Model for DeskTerms {
    ghost also_owns = { λ _. ftrue };
}
