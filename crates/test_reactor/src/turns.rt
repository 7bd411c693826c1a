use laws_turns::*;
use std::test::Fail;

#[test]
fn laws_at_a_note_type(_: HostRuntime) -> Result<(), Fail> {
    laws::no_close_while_alive::<u64>();
    laws::closed_itself_last::<u64>();
    laws::opens_once::<u64>();
    laws::moment_is_now::<u64>();
    Ok(())
}
