//! Messages, and the replies for which they ask.

ghost use Rattle.std.specs.Prelude.{◌≡◌};
ghost use Rattle.manager_slice.specs.Messages.{is_request};
ghost use Rattle.core_unit.specs.Core.{fits};

use line_stamps::{Message, Reply};

/// Whether a message is a request. Any other message gives a line back.
pub(crate) fn is_request(message: &Message) -> bool
    ensures { result ≡ is_request message.now }
{
    matches!(message, Message::ShReq { .. } | Message::ExReq { .. })
}

/// Whether a reply fills a line, and is of a kind for which the message asks.
pub(crate) fn fits(message: &Message, reply: &Reply) -> bool
    ensures { result ≡ fits message.now reply.now }
{
    match (message, reply) {
        (Message::ShReq { .. }, Reply::ShRep(_)) => true,
        (Message::ShReq { copy, .. }, Reply::RenewRep(_)) => copy.is_some(),
        (Message::ExReq { .. }, Reply::ExRep(_)) => true,
        (Message::ExReq { copy, .. }, Reply::UpgradeRep(_)) => copy.is_some(),
        _ => false,
    }
}
