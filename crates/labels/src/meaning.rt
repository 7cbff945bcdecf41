// What a number means, in document 01's words.
ghost use Rattle.std.specs.Prelude.{◌≡◌};
ghost use Rattle.columns.specs.Pouring.{filling, pour};
ghost use Rattle.labels.specs.Meanings.{meaning_of};

use columns::put_str;

// Another number has no meaning. (A match: of a table of texts that a number looks up the proof doesn't close.)
fn meaning(number: u8) -> &'static str
    ensures { result.now ≡ meaning_of number }
{
    match number {
        0 => "whole",
        1 => "more bytes needed",
        2 => "unknown type",
        3 => "body over 65,000",
        4 => "fields don't fill the body exactly",
        5 => "forbidden value",
        6 => "size",
        7 => "output too short for the message",
        8 => "done",
        9 => "message the ledger doesn't keep",
        10 => "session already closed",
        11 => "all rows in use",
        12 => "stale: no row, ID at or below the highest",
        13 => "breaks rule",
        14 => "not a ledger",
        15 => "start refused",
        16 => "arrival counted",
        17 => "outside the range",
        18 => "no row has this alias",
        19 => "row still pending",
        20..=255 => "",
    }
}

pub fn put_meaning(out: &mut [u8], at: usize, number: u8) -> usize
    ensures { filling out.new result ≡ pour (filling out.old at) (meaning_of number) }
{
    put_str(out, at, meaning(number))
}
