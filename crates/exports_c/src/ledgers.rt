// A ledger, which the caller holds as numbers (the crate ledger_numbers says which). What is no ledger answers 14, and
// stays as it is.
ghost use Rattle.std.specs.Prelude.{[]};
ghost use Rattle.rewrite.specs.Rewriting.{Does};
ghost use Rattle.ledger_calls.specs.Calls.{start_call, malformed_call, arrival_call, message_call, arrivals_call};

// A new ledger, with no row in use. The part is 0 for the subscriber's end and 1 for the publisher's.
#[unsafe(no_mangle)]
pub extern "C" fn moq_ledger_start(part: u64, rows: u64, maximum: u64, numbers: &mut [u64]) -> u64
    ensures { Does (start_call part rows maximum numbers.old) result numbers.new [] }
{
    exports::ledgers::moq_ledger_start(part, rows, maximum, numbers)
}

// The control message at the front of s: into `info` the bytes used, and the rule that it breaks.
#[unsafe(no_mangle)]
pub extern "C" fn moq_ledger_take(s: &[u8], numbers: &mut [u64], info: &mut [u64]) -> u64
    ensures { Does (message_call s.now numbers.old info.old) result
        numbers.new info.new }
{
    exports::ledgers::moq_ledger_take(s, numbers, info)
}

// Bytes of the peer's that are no message.
#[unsafe(no_mangle)]
pub extern "C" fn moq_ledger_malformed(numbers: &mut [u64]) -> u64
    ensures { Does (malformed_call numbers.old) result numbers.new [] }
{
    exports::ledgers::moq_ledger_malformed(numbers)
}

// An arrival.
#[unsafe(no_mangle)]
pub extern "C" fn moq_ledger_arrival(
    alias: u64,
    group: u64,
    object: u64,
    numbers: &mut [u64],
) -> u64
    ensures { Does (arrival_call (record { alias = alias; place = record { group = group; object = object } })
        numbers.old) result numbers.new [] }
{
    exports::ledgers::moq_ledger_arrival(alias, group, object, numbers)
}

// A run of arrivals, three numbers each: 01's number of each at the front of `answers`.
#[unsafe(no_mangle)]
pub extern "C" fn moq_ledger_arrivals(run: &[u64], numbers: &mut [u64], answers: &mut [u8]) -> u64
    ensures { Does (arrivals_call run.now numbers.old answers.old) result
        numbers.new answers.new }
{
    exports::ledgers::moq_ledger_arrivals(run, numbers, answers)
}
