// Which values of a field are permitted: "Forbidden field values (5)".
#![tactic(auto, unfolding(crate::specs::Rules::ends_after, crate::specs::Rules::is_track_status, crate::specs::Rules::may_hold))]

ghost use Rattle.std.specs.Prelude.{◌≡◌};
ghost use Rattle.types.specs.Rules.{ends_after, is_track_status, may_hold};

// A SUBSCRIBE's end group may be its start group, and none before it.
pub fn ends_after(start_group: u64, end_group: u64) -> bool
    ensures { result ≡ ends_after start_group end_group }
{
    start_group <= end_group
}

// The status of a track: 0 to 4.
pub fn is_track_status(status: u64) -> bool
    ensures { result ≡ is_track_status status }
{
    status <= 4
}

// A track that doesn't exist, or hasn't begun, has no largest group or object: 0 stands for it.
pub fn may_hold(status: u64, n: u64) -> bool
    ensures { result ≡ may_hold status n }
{
    match status {
        1..=2 => n == 0,
        _ => true,
    }
}
