// The commands with their options and plain words.
ghost use Rattle.std.specs.Prelude.{◌≡◌};
ghost use Rattle.command_words.specs.Tables.{kind_of, row, value_of};

// A command.
#[derive(Clone, Copy, PartialEq, Eq)]
pub enum Kind {
    Install,
    Remove,
    Reinstall,
    List,
    Show,
    Lint,
}

// What the value of an option is: the name of a file or a folder, or a number of jobs.
#[derive(Clone, Copy, PartialEq, Eq)]
pub enum ValueKind {
    Path,
    Jobs,
}

// What the plain words of a command are: none, names, at least one name, one name or package, or one file.
#[derive(Clone, Copy, PartialEq, Eq)]
pub enum PlainKind {
    Nothing,
    Names,
    SomeNames,
    Package,
    File,
}

impl Kind {
    // Which command a word is.
    pub fn of(word: &str) -> Option<Kind>
        ensures { result ≡ kind_of word.now }
    {
        match word {
            "install" => Some(Kind::Install),
            "remove" => Some(Kind::Remove),
            "reinstall" => Some(Kind::Reinstall),
            "list" => Some(Kind::List),
            "show" => Some(Kind::Show),
            "lint" => Some(Kind::Lint),
            _ => None,
        }
    }

    // What the value of its option of this name is, where it has one.
    pub fn value_of(self, option: &str) -> Option<ValueKind>
        ensures { result ≡ value_of (row self).options option.now }
    {
        match self {
            Kind::Install if option == "--lock-file" => Some(ValueKind::Path),
            Kind::Install | Kind::Show if option == "--repo" => Some(ValueKind::Path),
            Kind::Install | Kind::Remove | Kind::Reinstall if option == "--jobs" => {
                Some(ValueKind::Jobs)
            }
            _ => None,
        }
    }

    // What its plain words are.
    pub fn plain(self) -> PlainKind
        ensures { result ≡ (row self).words }
    {
        match self {
            Kind::Install => PlainKind::Names,
            Kind::Remove | Kind::Reinstall => PlainKind::SomeNames,
            Kind::List => PlainKind::Nothing,
            Kind::Show => PlainKind::Package,
            Kind::Lint => PlainKind::File,
        }
    }
}
