// Which values an object's status may have.
ghost use Rattle.std.specs.Prelude.{◌≡◌};
ghost use Rattle.header.specs.Rules.{is_object_status};

// Normal, does not exist, end of group, end of track.
pub fn is_status(status: u64) -> bool
    ensures { result ≡ is_object_status status }
{
    matches!(status, 0..=1 | 3..=4)
}
