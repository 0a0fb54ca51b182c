// What stands in a list at its path.
ghost use Rattle.std.specs.Prelude.{◌≡◌, ℕ, List};

use opam_names::RelPath;

/// A value that stands in a list at its path.
pub trait Pathed {
    ghost path: { Self → List ℕ };

    fn path(&self) -> &RelPath
        ensures { result.now ≡ path self.now };
}

impl<T> Pathed for (RelPath, T) {
    ghost path = { λ entry. entry.0 };

    fn path(&self) -> &RelPath {
        &self.0
    }
}
