//! Laws of the texts of scripts.
ghost use Rattle.std.specs.Prelude.{◌≡◌, List, ℕ};
ghost use Rattle.script_net.specs.event_script.specs.Script.{ScriptGroup};
ghost use Rattle.script_net.specs.event_script.specs.Grammar.{IsScriptText, IsBadAt};
ghost use Rattle.script_text.specs.Playable.{ArePlayable};

/// A text is that of one script at most, a script's text has no bad line, and no text has two first
/// bad lines. So what `parse_script` answers depends on the text alone, unless there is no memory.
pub fn texts_have_one_reading()
    ensures groups { (text : List ℕ) (a b : List ScriptGroup) → IsScriptText text a
        → IsScriptText text b → a ≡ b }
    ensures good { (text : List ℕ) (groups : List ScriptGroup) (n : ℕ) → IsScriptText text groups
        → IsBadAt text n → ⊥ }
    ensures bad { (text : List ℕ) (m n : ℕ) → IsBadAt text m → IsBadAt text n → m ≡ n }
{}

/// Whatever its text, the groups of a script come in order, each piece has a byte, and the listener
/// offers each connection.
pub fn scripts_are_playable()
    ensures { (text : List ℕ) (groups : List ScriptGroup) → IsScriptText text groups
        → ArePlayable groups }
{}
