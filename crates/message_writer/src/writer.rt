// A message is written as its shortest form. 5, 6, 3 and 7 in this order, each over the whole message; a refusal writes
// nothing.
ghost use Rattle.std.specs.Prelude.{◌≡◌};
ghost use Rattle.common.specs.Answer.{Leaves};
ghost use Rattle.measure.specs.Fields.{placed};
ghost use Rattle.encode.specs.Writing.{told_writing};
ghost use Rattle.message.specs.Types.{typed_of};
ghost use Rattle.message_writer.specs.Writing.{allowed_of, write_of};

use encode::Refusal;
use measure::Fields;
use message::Message;
use types::LONGEST_BODY;

// bytes is what the parts of the message point into.
pub fn write(out: &mut [u8], bytes: &[u8], m: Message) -> Result<usize, Refusal>
    ensures { Leaves (write_of bytes.now m out.old) (told_writing result) out.new }
{
    if !is_allowed(m) {
        return Err(Refusal::Forbidden);
    }
    encode::write_framed(out, bytes, &fields(m), LONGEST_BODY)
}

// The fields of a message.
pub fn fields(m: Message) -> Fields
    ensures { result ≡ placed (typed_of m) }
{
    match m {
        Message::Subscription(x) => subscription::fields(x),
        Message::Fetch(x) => fetch::fields(x),
        Message::Announce(x) => announce::fields(x),
        Message::Session(x) => session::fields(x),
    }
}

// The number of a message's type.
pub fn number(m: Message) -> u64
    ensures { result ≡ (typed_of m).type }
{
    match m {
        Message::Subscription(x) => subscription::number(x),
        Message::Fetch(x) => fetch::number(x),
        Message::Announce(x) => announce::number(x),
        Message::Session(x) => session::number(x),
    }
}

// Whether a message holds no forbidden value.
pub fn is_allowed(m: Message) -> bool
    ensures { result ≡ allowed_of m }
{
    match m {
        Message::Subscription(x) => subscription::is_allowed(x),
        Message::Fetch(x) => fetch::is_allowed(x),
        Message::Announce(_) => true,
        Message::Session(_) => true,
    }
}
