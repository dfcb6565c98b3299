//! Ports, which answer a core's messages.

ghost use Rattle.slice_bank.specs.Serving.{IsServedBySome};

use line_stamps::{Message, Reply};
use manager_slice::SliceFault;
use mem_op::CoreId;

/// A port answers a core's messages.
pub trait Port {
    /// Has the slice of the message's address handle it. Some history leads to a state from which the manager's table gives this
    /// reply to the message, or in which this refusal is due. A refusal may also be for lack of memory.
    fn serve(&mut self, from: CoreId, message: &Message) -> Result<Reply, SliceFault>
        ensures { IsServedBySome from message.now result };
}
