//! The laws of the tasks.
ghost use Rattle.module_stream.specs.Laws.{FormatsRecords, LeavesOthers};

use cdr_record::laws::decode_cuts;

/// A formatting task gives, for each message whose bytes spell a record, the text of that record,
/// and each other message as it is. The function does nothing: its contract is the law.
pub fn formats_what_spells_a_record()
    ensures records { FormatsRecords }
    ensures others { LeavesOthers }
{
    decode_cuts();
}
