//! The shorter of two lists.
ghost use Rattle.std.specs.Prelude.{◌≡◌, length, if◌then◌else◌, nat_le};

/// The shorter of two lists of line numbers itself, the first if they are equally long.
pub fn shorter<'a>(first: &'a [u16], second: &'a [u16]) -> &'a [u16]
    ensures same { result ≡ (if nat_le (length first.now) (length second.now) then first.entry else second.entry) }
    ensures value { result.now ≡ (if nat_le (length first.now) (length second.now) then first.now else second.now) }
{
    if first.len() <= second.len() {
        first
    } else {
        second
    }
}
