// What is wrong with an install file, in words.
ghost use Rattle.std.specs.Prelude.{◌≡◌};
ghost use Rattle.action_report.specs.Reports as reports;

use install_sections::InstallFault;
use opam_lint::fault_text;
use opam_package::PackageFault;
use syntax_trees::SyntaxFault;

fn syntax_place(fault: SyntaxFault) -> u32
    ensures { result ≡ reports.syntax_place fault }
{
    match fault {
        SyntaxFault::Ended { at }
        | SyntaxFault::Stray { at }
        | SyntaxFault::Deep { at }
        | SyntaxFault::Doubled { at } => at,
        SyntaxFault::Memory => 0,
    }
}

/// At which byte it is.
pub(crate) fn install_place(fault: InstallFault) -> u32
    ensures { result ≡ reports.install_place fault }
{
    match fault {
        InstallFault::Syntax(fault) => syntax_place(fault),
        InstallFault::UnknownSection { span }
        | InstallFault::Misc { span }
        | InstallFault::NotAnItem { span }
        | InstallFault::Unsafe { span }
        | InstallFault::TooMany { span } => span.start,
        InstallFault::Memory => 0,
    }
}

/// What it is. Want of memory has no text.
pub(crate) fn install_text(fault: InstallFault) -> &'static str
    ensures { result.now ≡ reports.install_text fault }
{
    match fault {
        InstallFault::Syntax(fault) => fault_text(PackageFault::Syntax(fault)),
        InstallFault::UnknownSection { .. } => "unknown section",
        InstallFault::Misc { .. } => "misc is refused",
        InstallFault::NotAnItem { .. } => "not an item",
        InstallFault::Unsafe { .. } => "unsafe path",
        InstallFault::TooMany { .. } => "too many",
        InstallFault::Memory => "",
    }
}
