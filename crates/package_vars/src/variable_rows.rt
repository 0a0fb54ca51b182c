// Variables that are set one at a time.
ghost use Rattle.std.specs.FinMap.{insert};
ghost use Rattle.std.specs.Prelude.{◌≡◌, [], ◌∷◌, ◌++◌, IfOk, OnOk, codes};
ghost use Rattle.opam_filter.specs.Scopes.{plain, scoped};
ghost use Rattle.package_vars.specs.BuildVariables as table;
ghost use Rattle.package_vars.specs.Steps.{with_rows};

use opam_filter::{VarValue, Vars};
use opam_names::{OutOfMemory, Text};
use std::alloc::Global;
use syntax_trees::{Var, Word};

fn word_of(alloc: Global, text: &str) -> Result<Word, OutOfMemory>
    ensures { IfOk result (λ word. word ≡ text.now) }
{
    Ok(Word::from_string(String::from_str(alloc, text)?))
}

pub(crate) fn set_plain(
    alloc: Global,
    vars: &mut Vars,
    name: &str,
    value: VarValue,
) -> Result<(), OutOfMemory>
    ensures { OnOk result (vars.new ≡ insert vars.old (plain name.now) value) }
{
    let var = Var {
        scope: None,
        name: word_of(alloc, name)?,
    };
    vars.set(var, value)
}

pub(crate) fn set_scoped(
    alloc: Global,
    vars: &mut Vars,
    scope: &str,
    name: &str,
    value: VarValue,
) -> Result<(), OutOfMemory>
    ensures { OnOk result (vars.new ≡ insert vars.old (scoped scope.now name.now) value) }
{
    let var = Var {
        scope: Some(word_of(alloc, scope)?),
        name: word_of(alloc, name)?,
    };
    vars.set(var, value)
}

pub(crate) fn text_value(alloc: Global, text: &str) -> Result<VarValue, OutOfMemory>
    ensures { IfOk result (λ value. value ≡ VarValue.Text text.now) }
{
    Ok(VarValue::Text(Text::from_str(alloc, text)?))
}

pub(crate) fn below(alloc: Global, prefix: &str, path: &str) -> Result<VarValue, OutOfMemory>
    ensures { IfOk result (λ value. value ≡ table.below_prefix prefix.now path.now) }
{
    let mut text = String::from_str(alloc, prefix)?;
    text.push_str("/")?;
    text.push_str(path)?;
    Ok(VarValue::Text(Text::from_string(text)))
}
