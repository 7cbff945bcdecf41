// How a call ends once something was read.
ghost use Rattle.std.specs.Prelude.{◌≡◌, ◌≤◌, length};
ghost use Rattle.encode.specs.Writing.{told_writing};
ghost use Rattle.rewrite.specs.Ends.{end_number, end_info};

use encode::Refusal;

// Bytes used, bytes written, the type, where something was written; what was read is refused for want of room alone.
pub fn tell(info: &mut [u64], writing: Result<usize, Refusal>, used: usize, number: u64) -> u8
    requires { 3 ≤ length info.old }
    ensures says { result ≡ end_number (told_writing writing) }
    ensures tells { info.new ≡ end_info (told_writing writing) used number info.old }
{
    let Ok(written) = writing else {
        return 7;
    };
    info[0] = used as u64;
    info[1] = written as u64;
    info[2] = number;
    0
}
