// Whether bytes are a text.
ghost use Rattle.std.specs.Prelude.{◌≡◌};
ghost use Rattle.std.specs.List.{list_all};
ghost use Rattle.std.specs.Str.{is_utf8 as utf8_test};
ghost use Rattle.opam_names.specs.Paths.{is_not_zero};
ghost use Rattle.opam_filter.specs.Faults as faults;

fn has_no_zero(bytes: &[u8]) -> bool
    ensures { result ≡ list_all is_not_zero bytes.now }
{
    bytes.iter().all(|byte| *byte != 0)
}

fn is_utf8(bytes: &[u8]) -> bool
    ensures { result ≡ utf8_test bytes.now }
{
    str::from_utf8(bytes).is_ok()
}

pub(crate) fn is_text(bytes: &[u8]) -> bool
    ensures { result ≡ faults.is_text bytes.now }
{
    is_utf8(bytes) && has_no_zero(bytes)
}
