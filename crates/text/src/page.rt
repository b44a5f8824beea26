ghost use Rattle.std.specs.Prelude.{◌≤◌, length};

pub mod calls;

/// The caller's buffer, and how far it is written: from the front on, one piece of text after another.
///
/// What is put on it has room, so that nothing fails. `write!` onto it would prove as well, but its contract leaves open
/// whether it answers an error, which nothing here may do.
#[derive(Drop)]
pub struct Page<'a> {
    out: &'a mut [u8],
    at: usize,
    ghost within: { at ≤ length out.now },
}
