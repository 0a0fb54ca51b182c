// What is decided of a package.
ghost use Rattle.std.specs.Prelude.{◌≡◌};
ghost use Rattle.action_report.specs.Reports.{is_done, is_installed, is_removed, is_failed, is_aborted};

use back_verdict::Why;
use change_verdict::Reason;
use opam_names::Pkg;

/// What was decided of a package.
#[derive(Drop)]
pub enum Decision {
    Installed(Pkg),
    Removed(Pkg),
    /// It was tried, and is not installed.
    Failed(Pkg, Reason),
    /// It was not tried: the second package is the need that is not installed.
    Aborted(Pkg, Pkg),
    /// It was removed, its new version did not come, and it is installed again.
    PutBack(Pkg),
    /// It was removed, its new version did not come, and it stays away.
    NotPutBack(Pkg, Why),
}

impl Decision {
    /// Whether nothing that was asked of the package is left undone: it neither failed nor was aborted. Nobody asks for what is put
    /// back.
    pub fn is_done(&self) -> bool
        ensures { result ≡ is_done self.now }
    {
        !(self.is_failed() || self.is_aborted())
    }

    pub(crate) fn is_installed(&self) -> bool
        ensures { result ≡ is_installed self.now }
    {
        matches!(self, Decision::Installed(_))
    }

    pub(crate) fn is_removed(&self) -> bool
        ensures { result ≡ is_removed self.now }
    {
        matches!(self, Decision::Removed(_))
    }

    pub(crate) fn is_failed(&self) -> bool
        ensures { result ≡ is_failed self.now }
    {
        matches!(self, Decision::Failed(_, _))
    }

    pub(crate) fn is_aborted(&self) -> bool
        ensures { result ≡ is_aborted self.now }
    {
        matches!(self, Decision::Aborted(_, _))
    }
}
