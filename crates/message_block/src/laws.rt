//! The laws of queues.
ghost use Rattle.message_block.specs.Laws.{FilledFalls, EqualInOrderOfArrival};

/// A queue that is filled by `enqueue_prio` alone holds its messages by falling priority, and those
/// of one priority in the order in which they came. The function does nothing: its contract is the
/// law.
pub fn equal_messages_leave_in_order_of_arrival()
    ensures falls { FilledFalls }
    ensures equal { EqualInOrderOfArrival }
{}
