// Whether a message may reach a ledger: it holds no forbidden value, and no number above the greatest integer.
ghost use Rattle.std.specs.Prelude.{◌≡◌};
ghost use Rattle.message_writer.specs.Sound.{sound_of};

use crate::writer::{fields, is_allowed};
use message::Message;

pub fn is_sound(m: Message) -> bool
    ensures { result ≡ sound_of m }
{
    is_allowed(m) && measure::are_small(&fields(m))
}
