// The rules of a slot's message.
ghost use Rattle.std.specs.Prelude.{◌≡◌};
ghost use Rattle.rules.specs.WellFormed.{address_fine, tokens_fine, ack_fine, message_fine};

use rules::empties::free_message;
use rules::messages::{Message, MessageKind};
use rules::states::Sizes;

fn address_fine(z: Sizes, m: Message) -> bool
    ensures { result ≡ address_fine z m }
{
    (m.line < z.lines)
        & (m.source <= z.caches)
        & (m.destination <= z.caches)
        & (m.source != m.destination)
        & (m.serial.0 < 4)
}

#[tactic(auto, unfolding(rules::specs::WellFormed::tokens_fine, rules::specs::Tools::every))]
fn tokens_fine(z: Sizes, m: Message) -> bool
    ensures { result ≡ tokens_fine z m }
{
    (0 < m.tokens.0) & (m.tokens.0 <= z.total.0) & (!m.owner | m.full) & (!!m.full | (m.word == 0))
}

fn ack_fine(m: Message) -> bool
    ensures { result ≡ ack_fine m }
{
    (m.tokens.0 == 0) & !m.owner & !m.full & (m.word == 0)
}

// The rules of a slot, by the kind of what it holds.
#[tactic(auto, unfolding(rules::specs::WellFormed::message_fine))]
pub fn message_fine(z: Sizes, m: Message) -> bool
    ensures { result ≡ message_fine z m m.kind }
{
    match m.kind {
        MessageKind::Free => m == free_message(),
        MessageKind::Tokens => address_fine(z, m) & tokens_fine(z, m),
        MessageKind::OwnershipAck | MessageKind::DeletionAck => address_fine(z, m) & ack_fine(m),
    }
}
