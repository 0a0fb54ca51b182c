// A text that contracts see as its bytes.
ghost use Rattle.std.specs.Prelude.{◌≡◌, IfOk, string_bytes};
ghost use Rattle.std.proofs.Common.{rules};
ghost use Rattle.std.specs.Cmp.{partial_order_from_own_ties};
ghost use Rattle.std.specs.Cmp.Lexicographic.{slice_cmp};
ghost use Rattle.std.specs.Cmp.Rules.{comparing};
ghost use Rattle.std.specs.Ordering.{as_partial_cmp, nat_cmp};
ghost use Rattle.std.specs.Str.{bytes_eq};

use crate::OutOfMemory;
use std::alloc::Global;
use std::cmp::Ordering;
use std::marker::Model;

/// A `String` that contracts see as its bytes, so that a copy equals what it copies.
#[derive(Drop)]
pub struct Text {
    inner: String,
}

impl Model for Text {
    ghost use Rattle.std.specs.Prelude.{ℕ, List, string_bytes};
    ghost use Rattle.std.specs.Coded.{coded_list, coded_ℕ};

    ghost Value = { List ℕ };

    ghost coded = { coded_list coded_ℕ };

    ghost view = { λ t. string_bytes t.inner };
}

impl Text {
    /// Takes no memory.
    pub fn from_string(inner: String) -> Text
        ensures { result ≡ string_bytes inner }
    {
        Text { inner }
    }

    /// Takes no memory.
    pub fn into_string(self) -> String
        ensures { string_bytes result ≡ self }
    {
        let Text { inner } = self;
        inner
    }

    pub fn as_str(&self) -> &str
        ensures { result.now ≡ self.now }
    {
        self.inner.as_str()
    }

    pub fn from_str(alloc: Global, text: &str) -> Result<Text, OutOfMemory>
        ensures { IfOk result (λ t. t ≡ text.now) }
    {
        Ok(Text {
            inner: String::from_str(alloc, text)?,
        })
    }

    pub fn copy(&self, alloc: Global) -> Result<Text, OutOfMemory>
        ensures { IfOk result (λ t. t ≡ self.now) }
    {
        Text::from_str(alloc, self.inner.as_str())
    }
}

// Texts stand in the order of their bytes.
impl PartialEq for Text {
    ghost eq = { bytes_eq };

    ghost laws = { Prim.search (comparing, rules) };

    fn eq(&self, other: &Text) -> bool {
        self.inner.as_str() == other.inner.as_str()
    }
}

impl Eq for Text {
    ghost laws = { Prim.search (comparing, rules) };
}

impl Ord for Text {
    ghost cmp = { slice_cmp nat_cmp };

    ghost total = { Prim.search (comparing, rules) };

    ghost matches_partial_cmp = { Prim.search (comparing, rules) };

    ghost matches_eq = { Prim.search (comparing, rules) };

    fn cmp(&self, other: &Text) -> Ordering {
        self.inner.as_str().cmp(other.inner.as_str())
    }
}

impl PartialOrd for Text {
    ghost partial_cmp = { as_partial_cmp (slice_cmp nat_cmp) };

    ghost laws = { partial_order_from_own_ties (Prim.search (comparing, rules)) (Prim.search (comparing, rules)) };

    fn partial_cmp(&self, other: &Text) -> Option<Ordering> {
        Some(self.cmp(other))
    }
}
