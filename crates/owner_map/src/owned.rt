// An owned path.
use opam_names::{ByteKey, Pkg, RelPath};

/// A path with the package that owns it.
#[derive(Drop)]
pub struct OwnedPath {
    pub path: RelPath,
    pub owner: Pkg,
}

/// It stands by its path.
impl ByteKey for OwnedPath {
    ghost use Rattle.owner_map.specs.Owning.{path_of};

    ghost key = { path_of };

    fn key(&self) -> &[u8] {
        self.path.as_str().as_bytes()
    }
}
