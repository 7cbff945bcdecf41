// A ledger, which the caller holds as numbers (the crate ledger_numbers says which). What is no ledger answers 14, and
// stays as it is.
ghost use Rattle.std.specs.Prelude.{[]};
ghost use Rattle.rewrite.specs.Rewriting.{Does};
ghost use Rattle.ledger_calls.specs.Calls.{start_call, malformed_call, arrival_call, message_call, arrivals_call};

// A new ledger, with no row in use. The part is 0 for the subscriber's end and 1 for the publisher's.
pub fn moq_ledger_start(part: u64, rows: u64, maximum: u64, numbers: &mut [u64]) -> u64
    ensures { Does (start_call part rows maximum numbers.old) result numbers.new [] }
{
    ledger_calls::start(part, rows, maximum, numbers)
}

// The control message at the front of s: into `info` the bytes used, and the rule that it breaks.
pub fn moq_ledger_take(s: &[u8], numbers: &mut [u64], info: &mut [u64]) -> u64
    ensures { Does (message_call s.now numbers.old info.old) result
        numbers.new info.new }
{
    ledger_calls::take(s, numbers, info)
}

// Bytes of the peer's that are no message.
pub fn moq_ledger_malformed(numbers: &mut [u64]) -> u64
    ensures { Does (malformed_call numbers.old) result numbers.new [] }
{
    ledger_calls::malformed(numbers)
}

// An arrival.
pub fn moq_ledger_arrival(alias: u64, group: u64, object: u64, numbers: &mut [u64]) -> u64
    ensures { Does (arrival_call (record { alias = alias; place = record { group = group; object = object } })
        numbers.old) result numbers.new [] }
{
    ledger_calls::arrival(alias, group, object, numbers)
}

// A run of arrivals, three numbers each: 01's number of each at the front of `answers`.
pub fn moq_ledger_arrivals(run: &[u64], numbers: &mut [u64], answers: &mut [u8]) -> u64
    ensures { Does (arrivals_call run.now numbers.old answers.old) result
        numbers.new answers.new }
{
    ledger_calls::arrivals(run, numbers, answers)
}
