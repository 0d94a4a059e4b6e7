// Where texts differ.

ghost use Rattle.std.specs.Prelude.{◌≡◌, ◌==◌, ◌≤◌, length};
ghost use Rattle.std.specs.List.{common_prefix_len};

/// The offset from which on two texts differ: how many bytes at their fronts are the same.
pub fn first_difference(one: &[u8], other: &[u8]) -> usize
    ensures count { result ≡ common_prefix_len ◌==◌ one.now other.now }
    ensures within { result ≤ length one.now }
    ensures within_other { result ≤ length other.now }
{
    let mut at = 0;
    while at < one.len() && at < other.len() && one[at] == other[at] {
        at += 1;
    }
    at
}
