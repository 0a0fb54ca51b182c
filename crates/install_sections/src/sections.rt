// The sections of an install file: where the files of each go, and whether they can be executed.
ghost use Rattle.std.specs.Prelude.{◌≡◌};
ghost use Rattle.install_sections.specs.Sections as sections;

/// A folder below the prefix.
#[derive(Clone, Copy, Debug, PartialEq, Eq)]
pub enum Folder {
    Lib,
    Toplevel,
    Stublibs,
    Bin,
    Sbin,
    Share,
    Etc,
    Doc,
    Man,
}

/// How files lie in the folder of their section.
#[derive(Clone, Copy, Debug, PartialEq, Eq)]
pub enum Layout {
    /// In a folder with the name of the package.
    Own,
    /// In the folder itself.
    Shared,
    /// In the folder itself, or in that of a chapter of the manual.
    Pages,
}

/// A section of an install file.
#[derive(Clone, Copy, Debug, PartialEq, Eq)]
pub struct Section {
    pub folder: Folder,
    pub layout: Layout,
    /// Whether its files can be executed.
    pub exec: bool,
}

impl Folder {
    /// Its path below the prefix.
    pub fn as_str(self) -> &'static str
        ensures { result.now ≡ sections.folder_text self }
    {
        match self {
            Folder::Lib => "lib",
            Folder::Toplevel => "lib/toplevel",
            Folder::Stublibs => "lib/stublibs",
            Folder::Bin => "bin",
            Folder::Sbin => "sbin",
            Folder::Share => "share",
            Folder::Etc => "etc",
            Folder::Doc => "doc",
            Folder::Man => "man",
        }
    }
}

fn make_section(folder: Folder, layout: Layout, exec: bool) -> Section
    ensures { result ≡ sections.section folder layout exec }
{
    Section {
        folder,
        layout,
        exec,
    }
}

impl Section {
    /// The section of this name (opam manual, package definitions: `.install` files).
    pub fn named(name: &str) -> Option<Section>
        ensures { result ≡ sections.section_of name.now }
    {
        match name {
            "lib" => Some(make_section(Folder::Lib, Layout::Own, false)),
            "libexec" => Some(make_section(Folder::Lib, Layout::Own, true)),
            "lib_root" => Some(make_section(Folder::Lib, Layout::Shared, false)),
            "libexec_root" => Some(make_section(Folder::Lib, Layout::Shared, true)),
            "bin" => Some(make_section(Folder::Bin, Layout::Shared, true)),
            "sbin" => Some(make_section(Folder::Sbin, Layout::Shared, true)),
            "toplevel" => Some(make_section(Folder::Toplevel, Layout::Shared, false)),
            "stublibs" => Some(make_section(Folder::Stublibs, Layout::Shared, true)),
            "share" => Some(make_section(Folder::Share, Layout::Own, false)),
            "share_root" => Some(make_section(Folder::Share, Layout::Shared, false)),
            "etc" => Some(make_section(Folder::Etc, Layout::Own, false)),
            "doc" => Some(make_section(Folder::Doc, Layout::Own, false)),
            "man" => Some(make_section(Folder::Man, Layout::Pages, false)),
            _ => None,
        }
    }
}
