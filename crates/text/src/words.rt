// Words, and the names of control messages, put at the front of what is lent.
ghost use Rattle.std.specs.Prelude.{◌≡◌, ◌≤◌, length};
ghost use Rattle.common.specs.Buffer.{Put};
ghost use Rattle.types.specs.Table.{name_of};
ghost use Rattle.text.specs.Words.{word_of};

use crate::Word;

impl Word {
    #[tactic(auto, unfolding(crate::specs::Words::word_of, types::specs::Letters::letters))]
    pub fn as_str(self) -> &'static str
        ensures { result.now ≡ word_of self }
    {
        match self {
            Word::Open => "open",
            Word::Closed => "closed",
            Word::Columns => "ID ALIAS STATE GROUP OBJECT COUNT",
            Word::Pending => "pending",
            Word::Active => "active",
            Word::Nothing => "-",
            Word::TraceFaultAt => "trace fault at",
            Word::Start => "start",
            Word::Malformed => "malformed",
            Word::Arrival => "arrival",
        }
    }
}

// The name of a control message, by the number of its type. Another number has none.
#[tactic(auto, unfolding(types::specs::Letters::letters, types::specs::Table::messages, types::specs::Table::type_row_in, types::specs::Table::type_row_of, types::specs::Table::name_of))]
pub fn name(number: u64) -> &'static str
    ensures { result.now ≡ name_of number }
{
    match number {
        0x40 => "CLIENT_SETUP",
        0x41 => "SERVER_SETUP",
        0x10 => "GOAWAY",
        0x15 => "MAX_SUBSCRIBE_ID",
        0x1A => "SUBSCRIBES_BLOCKED",
        0x3 => "SUBSCRIBE",
        0x4 => "SUBSCRIBE_OK",
        0x5 => "SUBSCRIBE_ERROR",
        0xA => "UNSUBSCRIBE",
        0x2 => "SUBSCRIBE_UPDATE",
        0xB => "SUBSCRIBE_DONE",
        0x16 => "FETCH",
        0x18 => "FETCH_OK",
        0x19 => "FETCH_ERROR",
        0x17 => "FETCH_CANCEL",
        0xD => "TRACK_STATUS_REQUEST",
        0xE => "TRACK_STATUS",
        0x6 => "ANNOUNCE",
        0x7 => "ANNOUNCE_OK",
        0x8 => "ANNOUNCE_ERROR",
        0x9 => "UNANNOUNCE",
        0xC => "ANNOUNCE_CANCEL",
        0x11 => "SUBSCRIBE_ANNOUNCES",
        0x12 => "SUBSCRIBE_ANNOUNCES_OK",
        0x13 => "SUBSCRIBE_ANNOUNCES_ERROR",
        0x14 => "UNSUBSCRIBE_ANNOUNCES",
        _ => "",
    }
}

// Text at the front of out.
pub fn put_str(out: &mut [u8], s: &str) -> usize
    requires { length s.now ≤ length out.old }
    ensures { Put s.now out.old result out.new }
{
    common::put_bytes(out, s.as_bytes())
}
