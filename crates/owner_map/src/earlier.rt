// New paths in byte order, each with its place among them.
use opam_names::{ByteKey, RelPath};

#[derive(Drop)]
pub(crate) struct Place {
    pub(crate) path: RelPath,
    pub(crate) index: usize,
}

impl ByteKey for Place {
    ghost use Rattle.owner_map.specs.Searching.{place_path};

    ghost key = { place_path };

    fn key(&self) -> &[u8] {
        self.path.as_str().as_bytes()
    }
}
