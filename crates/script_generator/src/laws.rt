//! Laws of the generated scripts. Each function has an empty body: what it says is its contract.
ghost use Rattle.script_generator.specs.Laws as L;
ghost use Rattle.script_generator.specs.Rows.{HasRows};

/// The generated text is that of the generated script: so a reader of scripts takes it.
pub fn texts_are_scripts()
    ensures { L.TextsAreScripts }
{}

/// A generated script has 252 steps for each connection, in an order in which they may stand.
pub fn scripts_have_steps()
    ensures { L.ScriptsHaveSteps }
{}

/// The bytes of a generated record spell it.
pub fn bytes_spell()
    ensures { L.BytesSpell }
{}

/// Each connection brings its 125 records, and is shut.
pub fn connections_bring_records()
    ensures { L.ConnectionsBringRecords }
{}

/// All connections bring 29 bytes for each record, and its letters.
pub fn bytes_are_those_of_records()
    ensures { L.BytesAreThoseOfRecords }
{}

/// Worked rows: the first lines of one connection and seed 0, and how many bytes some scripts
/// bring.
pub fn rows()
    ensures { HasRows }
{}
