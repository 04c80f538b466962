ghost use Rattle.std.specs.Prelude.{◌≡◌, ◌+◌, ◌-◌, ◌*◌, ◌≤◌, drop, vec_len, vec_capacity};

/// Moves what is left from `from` on to the front, once at least as much before it was given out, and
/// answers where it begins then. So each byte is moved once for each byte given out, at most.
pub fn cut_off(buffer: &mut Vec<u8>, from: usize) -> usize
    requires { from ≤ vec_len buffer.old }
    ensures rest { drop result buffer.new.items ≡ drop from buffer.old.items }
    ensures within { result ≤ vec_len buffer.new }
    ensures small { vec_len buffer.new ≤ 2 * (vec_len buffer.old - from) }
    ensures capacity { vec_capacity buffer.new ≡ vec_capacity buffer.old }
{
    let left = buffer.len() - from;
    if from < left {
        return from;
    }
    buffer.copy_within(from.., 0);
    buffer.truncate(left);
    0
}
