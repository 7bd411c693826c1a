// What a run starts with. Contracts alone speak of it.
ghost use Rattle.atomic_table.specs.Seated.{TableId, table_id_coded};
ghost use base.Fml.{ftrue};

use std::marker::Model;

/// The terms of a desk.
pub struct Terms {
    pub most: u64,
    // The ring that the desk's drainer belongs to.
    pub ghost ring: { TableId } by { table_id_coded },
}

impl Model for Terms {
    ghost also_owns = { λ _. ftrue };
}
