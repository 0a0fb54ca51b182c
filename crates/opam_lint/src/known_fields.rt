// The fields of an opam file that are known.
ghost use Rattle.std.specs.Prelude.{◌≡◌};
ghost use Rattle.opam_lint.specs.KnownFields as known;

// Those that are read of a package.
fn is_read(name: &str) -> bool
    ensures { result ≡ known.is_among known.read_names name.now }
{
    matches!(
        name,
        "opam-version"
            | "name"
            | "version"
            | "synopsis"
            | "depends"
            | "depopts"
            | "conflicts"
            | "conflict-class"
            | "available"
            | "build"
            | "setenv"
            | "build-env"
    )
}

// Those for which a package may be refused.
fn is_refusable(name: &str) -> bool
    ensures { result ≡ known.is_among known.refused_names name.now }
{
    matches!(
        name,
        "install" | "remove" | "patches" | "extra-files" | "substs"
    )
}

// Those that are not looked at.
fn is_passed_over(name: &str) -> bool
    ensures { result ≡ known.is_among known.other_names name.now }
{
    matches!(
        name,
        "maintainer"
            | "authors"
            | "license"
            | "homepage"
            | "doc"
            | "bug-reports"
            | "dev-repo"
            | "description"
            | "tags"
            | "run-test"
            | "depexts"
            | "pin-depends"
            | "messages"
            | "post-messages"
            | "flags"
    )
}

/// Whether a field of this name is known: one of a package, or any whose name begins with `x-`.
pub(crate) fn is_known(name: &str) -> bool
    ensures { result ≡ known.is_known name.now }
{
    is_read(name)
        || is_refusable(name)
        || is_passed_over(name)
        || name.as_bytes().starts_with(b"x-")
}
