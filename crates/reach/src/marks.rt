//! Marks of junctions.
ghost use Rattle.std.specs.Prelude.{◌≡◌, ℕ, ◌<◌, ◌≤◌, false};
ghost use Rattle.plant.specs.Held.{marked};

use plant::Marks;

/// Just the junctions below `n` whose mark the test accepts.
pub fn select<F: Fn(bool) -> bool>(n: u8, marks: &Marks, accepts: F) -> Marks
    requires { F.IsAlwaysCallable accepts }
    ensures below { (v : ℕ) → v < n → F.post accepts (marked marks.now v) (marked result v) }
    ensures beyond { (v : ℕ) → n ≤ v → marked result v ≡ false }
{
    let mut selected = [false; 256];
    // A loop over places: by `from_fn` and by `zip` the proof did not close.
    for (v, mark) in marks[..n as usize].iter().enumerate() {
        selected[v] = accepts(*mark);
    }
    selected
}
