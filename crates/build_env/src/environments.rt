// The environment of a job.
ghost use Rattle.std.specs.Prelude.{◌≡◌, ◌++◌, IfOk, OnOk, codes, string_bytes};
ghost use Rattle.build_env.specs.Environments as env_of;
ghost use Rattle.build_env.specs.Seen as seen;

use crate::Export;
use crate::job_names::asked_by_export;
use crate::members::vars_seen;
use opam_filter::{Vars, expand};
use opam_names::{Items, Name, OutOfMemory, Pkg, Text};
use opam_package::{EnvUpdate, Package};
use package_vars::Facts;
use std::alloc::Global;
use std::collections::BTreeMap;
use syntax_trees::EnvOp;

/// What is handed in, the switch and the package, the exports, and the updates of the package itself under its variables,
/// one after another.
pub(crate) fn environment(
    alloc: Global,
    facts: &Facts,
    named: &BTreeMap<Name, Pkg>,
    vars: &Vars,
    built: &Package,
    exports: &[Export],
) -> Result<Items<(Text, Text)>, OutOfMemory>
    ensures { IfOk result (λ env. env ≡ seen.environment_seen
        facts.now named.now.entries vars.now built.now exports.now) }
{
    let mut env = BTreeMap::new(alloc);
    set_pairs(alloc, &mut env, facts.env.as_slice())?;
    set_package(alloc, &mut env, facts.prefix.as_str(), &built.pkg)?;
    set_exports(alloc, &mut env, facts, named, exports)?;
    set_updates(alloc, &mut env, vars, built.build_env.as_slice())?;
    Ok(Items::from_vec(env.into_iter().collect(alloc)?))
}

fn set_value(
    alloc: Global,
    env: &mut BTreeMap<Text, Text>,
    name: &str,
    value: Text,
) -> Result<(), OutOfMemory>
    ensures { OnOk result (env.new.entries ≡ env_of.with_value env.old.entries name.now value) }
{
    env.insert(Text::from_str(alloc, name)?, value)?;
    Ok(())
}

fn set_text(
    alloc: Global,
    env: &mut BTreeMap<Text, Text>,
    name: &str,
    value: &str,
) -> Result<(), OutOfMemory>
    ensures { OnOk result (env.new.entries ≡ env_of.with_value env.old.entries name.now value.now) }
{
    set_value(alloc, env, name, Text::from_str(alloc, value)?)
}

fn with_colon(alloc: Global, one: &str, other: &str) -> Result<Text, OutOfMemory>
    ensures { IfOk result (λ text. text ≡ env_of.with_colon one.now other.now) }
{
    let mut text = String::from_str(alloc, one)?;
    text.push_str(":")?;
    text.push_str(other)?;
    Ok(Text::from_string(text))
}

// The new value by the sign of an update.
fn updated(alloc: Global, op: EnvOp, old: &str, value: &str) -> Result<Text, OutOfMemory>
    ensures { IfOk result (λ text. text ≡ env_of.updated op old.now value.now) }
{
    match op {
        EnvOp::Set => Text::from_str(alloc, value),
        EnvOp::Before => {
            if old.is_empty() {
                Text::from_str(alloc, value)
            } else {
                with_colon(alloc, value, old)
            }
        }
        EnvOp::After => {
            if old.is_empty() {
                Text::from_str(alloc, value)
            } else {
                with_colon(alloc, old, value)
            }
        }
        EnvOp::BeforeKeep => with_colon(alloc, value, old),
        EnvOp::AfterKeep => with_colon(alloc, old, value),
    }
}

fn new_value(
    alloc: Global,
    env: &BTreeMap<Text, Text>,
    name: &Text,
    op: EnvOp,
    value: &str,
) -> Result<Text, OutOfMemory>
    ensures { IfOk result (λ text. text ≡
        env_of.updated op (env_of.value_there env.now.entries name.now) value.now) }
{
    match env.get(name) {
        Some(old) => updated(alloc, op, old.as_str(), value),
        None => updated(alloc, op, "", value),
    }
}

fn set_sign(
    alloc: Global,
    env: &mut BTreeMap<Text, Text>,
    name: &str,
    op: EnvOp,
    value: &str,
) -> Result<(), OutOfMemory>
    ensures { OnOk result (env.new.entries ≡
        env_of.with_sign env.old.entries name.now op value.now) }
{
    let name = Text::from_str(alloc, name)?;
    let value = new_value(alloc, env, &name, op, value)?;
    env.insert(name, value)?;
    Ok(())
}

fn set_updates(
    alloc: Global,
    env: &mut BTreeMap<Text, Text>,
    vars: &Vars,
    updates: &[EnvUpdate],
) -> Result<(), OutOfMemory>
    ensures { OnOk result (env.new.entries ≡
        env_of.with_updates vars.now env.old.entries updates.now) }
{
    for update in updates {
        let value = expand(alloc, update.value.as_str(), vars)?;
        set_sign(alloc, env, update.name.as_str(), update.op, value.as_str())?;
    }
    Ok(())
}

fn set_pairs(
    alloc: Global,
    env: &mut BTreeMap<Text, Text>,
    pairs: &[(Text, Text)],
) -> Result<(), OutOfMemory>
    ensures { OnOk result (env.new.entries ≡ env_of.with_pairs env.old.entries pairs.now) }
{
    for (name, value) in pairs {
        set_text(alloc, env, name.as_str(), value.as_str())?;
    }
    Ok(())
}

fn set_package(
    alloc: Global,
    env: &mut BTreeMap<Text, Text>,
    prefix: &str,
    pkg: &Pkg,
) -> Result<(), OutOfMemory>
    ensures { OnOk result (env.new.entries ≡
        env_of.with_built env.old.entries prefix.now pkg.now) }
{
    let mut commands = String::from_str(alloc, prefix)?;
    commands.push_str("/bin")?;
    set_sign(alloc, env, "PATH", EnvOp::Before, commands.as_str())?;
    set_text(alloc, env, "OPAM_SWITCH_PREFIX", prefix)?;
    set_text(alloc, env, "OPAM_PACKAGE_NAME", pkg.name.as_str())?;
    set_text(alloc, env, "OPAM_PACKAGE_VERSION", pkg.version.as_str())
}

fn set_export(
    alloc: Global,
    env: &mut BTreeMap<Text, Text>,
    facts: &Facts,
    named: &BTreeMap<Name, Pkg>,
    export: &Export,
) -> Result<(), OutOfMemory>
    ensures { OnOk result (env.new.entries ≡ seen.with_export_seen
        facts.now named.now.entries env.old.entries export.now) }
{
    if export.updates.is_empty() {
        return Ok(());
    }
    let asked = asked_by_export(alloc, export)?;
    let vars = vars_seen(alloc, facts, named, &export.pkg, asked.as_slice())?;
    set_updates(alloc, env, &vars, export.updates.as_slice())
}

fn set_exports(
    alloc: Global,
    env: &mut BTreeMap<Text, Text>,
    facts: &Facts,
    named: &BTreeMap<Name, Pkg>,
    exports: &[Export],
) -> Result<(), OutOfMemory>
    ensures { OnOk result (env.new.entries ≡ seen.with_exports_seen
        facts.now named.now.entries env.old.entries exports.now) }
{
    for export in exports {
        set_export(alloc, env, facts, named, export)?;
    }
    Ok(())
}
