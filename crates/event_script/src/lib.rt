//! Scripts of network events: what happens at a listener and at the ends of its connections, and at
//! which moments. The crate has definitions alone: a script as data (`specs/Script.antt`), what
//! each end has to tell in it (`specs/Stories.antt`), and which text is that of a script
//! (`specs/Grammar.antt`). What a net answers that plays the groups of a script stands in
//! `ev_base`.
#![tactic(auto)]
