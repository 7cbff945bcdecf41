// Answers and rules in document 01's numbers.
ghost use Rattle.std.specs.Prelude.{◌≡◌};
ghost use Rattle.ledger.specs.Answers.{rule_number, told_answer};

use crate::{Answer, Rule};

// Document 01's number of an answer, and the rule that comes with a 13 (0 with any other).
pub fn number(answer: Answer) -> u8
    ensures { result ≡ (told_answer answer).number }
{
    match answer {
        Answer::Forbidden => 5,
        Answer::Done => 8,
        Answer::NotKept => 9,
        Answer::AlreadyClosed => 10,
        Answer::Full => 11,
        Answer::Stale => 12,
        Answer::Breaks(_) => 13,
        Answer::NotALedger => 14,
        Answer::StartRefused => 15,
        Answer::Counted => 16,
        Answer::Outside => 17,
        Answer::NoRow => 18,
        Answer::StillPending => 19,
    }
}

pub fn broken(answer: Answer) -> u8
    ensures { result ≡ (told_answer answer).rule }
{
    match answer {
        Answer::Breaks(rule) => rule_number(rule),
        _ => 0,
    }
}

pub fn rule_number(rule: Rule) -> u8
    ensures { result ≡ rule_number rule }
{
    match rule {
        Rule::R1 => 1,
        Rule::R2 => 2,
        Rule::R3 => 3,
        Rule::R4 => 4,
        Rule::R5 => 5,
        Rule::R6 => 6,
        Rule::R7 => 7,
    }
}
