//! How a slice serves a message.

ghost use Rattle.std.specs.Prelude.{◌≡◌, OnErr};
ghost use Rattle.slice_bank.specs.Serving.{IsServed, IsServedBySome};

use line_stamps::{Message, Reply};
use manager_slice::{ManagerSlice, SliceFault};
use mem_op::CoreId;

/// The slice serves a core's message. A refusal changes nothing.
pub(crate) fn serve(
    slice: &mut ManagerSlice,
    from: CoreId,
    message: &Message,
) -> Result<Reply, SliceFault>
    ensures by_some { IsServedBySome from message.now result }
    ensures served { IsServed slice.old from message.now result slice.new }
    ensures refused { OnErr result (slice.new ≡ slice.old) }
{
    slice.replays();
    slice.handle(from, message)
}
