// Which group orders a message may hold.
ghost use Rattle.std.specs.Prelude.{◌≡◌};
ghost use Rattle.field.specs.Rules.{askable, givable};

// In a request: 0 leaves it to the publisher, 1 is ascending, 2 descending.
pub fn is_askable(order: u8) -> bool
    ensures { result ≡ askable order }
{
    order <= 2
}

// In the answer to one: ascending or descending.
pub fn is_givable(order: u8) -> bool
    ensures { result ≡ givable order }
{
    if order < 1 {
        return false;
    }
    order <= 2
}
