// The opening of the switch of a run.
ghost use Rattle.std.specs.Prelude.{◌≡◌, ◌≢◌, IfOk, Err};
ghost use Rattle.std.specs.declared.option.Option.TheVariants.{Some};
ghost use Rattle.crash_disk.specs.Disks.{State};
ghost use Rattle.crash_disk.specs.Stops.{StopsLeave};
ghost use Rattle.package_vars.specs.BuildVariables.{global_rows, variables_of};
ghost use Rattle.switch_journal.specs.Opening.{IsWhileOpening, TouchesLast};
ghost use Rattle.switch_state.specs.Recovery.{AreMembersRead, OpensSwitch};
ghost use Rattle.switch_state.specs.WellFormed.{IsWellFormed};
ghost use Rattle.run_answers.specs.Opening.{Causes, Claims, IsGivenFor, OnlyClaims, Opens, OpensClaiming, SaysDamage, SaysTaken};
ghost use Rattle.run_answers.specs.Stops.{damage_stop};
ghost use Rattle.run_answers.specs.declared.stop.Stop.TheVariants.{DiskFailed, HostFailed, Locked};

use crate::{Cause, Stop};
use crash_disk::{Claim, Disk};
use opam_filter::Vars;
use opam_names::{Items, OutOfMemory, RelPath};
use outside_io::Failed;
use package_vars::{Facts, globals};
use std::alloc::Global;
use switch_state::{Switch, SwitchFault};

/// A switch that was opened, and the variables by which the packages of the run are read.
#[derive(Drop)]
pub struct Opened {
    pub switch: Switch,
    pub globals: Vars,
}

/// Claims the disk of a switch for this run, and opens the switch.
pub fn open_switch<D: Disk>(disk: &mut D, alloc: Global, facts: &Facts) -> Result<Opened, Stop>
    // The disk's fault, and that it is locked, are told only where that was counted, and that is counted only there.
    ensures disk { Causes DiskFailed (D.faults disk.old) (D.faults disk.new) result }
    ensures held { Causes Locked (D.held disk.old) (D.held disk.new) result }
    // It is locked exactly where another has claimed it, as long as the disk does not fail.
    ensures taken { SaysTaken (D.taken disk.old) result }
    ensures locked { result ≡ Err Locked → OnlyClaims D.Disk disk.old disk.new }
    // Nothing changes but at the paths of the last counted record.
    ensures touches { result ≢ Err Locked → TouchesLast D.Disk disk.old disk.new }
    ensures under { IfOk result (λ opened. opened.globals
        ≡ variables_of (global_rows facts.now.globals)) }
    // The switch stands for the disk, and its state is what the journal says.
    ensures stands { (s : State) → D.told disk.old ≡ Some s
        → IfOk result (λ opened. OpensSwitch opened.switch s.files (D.told disk.new)) }
    ensures formed { IfOk result (λ opened. IsWellFormed opened.switch.state) }
    ensures members { IfOk result (λ opened. AreMembersRead opened.globals opened.switch.state) }
    ensures commits { IfOk result (λ opened. opened.switch.commits ≡ 0) }
    ensures damaged { (s : State) → D.told disk.old ≡ Some s → SaysDamage s.files result }
    ensures host { result ≢ Err HostFailed }
    // Whenever the machine stops, an opening makes the same of the disk.
    ensures crash { (s : State) → D.told disk.old ≡ Some s
        → StopsLeave D.Disk (IsWhileOpening s) disk.old disk.new }
{
    claim_and_open(disk, alloc, facts)
}

fn claim_and_open<D: Disk>(disk: &mut D, alloc: Global, facts: &Facts) -> Result<Opened, Stop>
    ensures { OpensClaiming D.Disk (variables_of (global_rows facts.now.globals))
        disk.old disk.new result }
{
    match claim(disk) {
        Ok(Claim::Mine) => open_claimed(disk, alloc, facts),
        Ok(Claim::Held) => Err(Stop::Locked),
        Err(Failed) => Err(Stop::DiskFailed),
    }
}

fn claim<D: Disk>(disk: &mut D) -> Result<Claim, Failed>
    ensures { Claims D.Disk disk.old disk.new result }
{
    disk.claim()
}

fn open_claimed<D: Disk>(disk: &mut D, alloc: Global, facts: &Facts) -> Result<Opened, Stop>
    ensures { Opens D.Disk (variables_of (global_rows facts.now.globals)) disk.old disk.new result }
{
    match globals(alloc, facts) {
        Ok(globals) => open_under(disk, alloc, globals),
        Err(OutOfMemory) => Err(Stop::Memory),
    }
}

fn open_under<D: Disk>(disk: &mut D, alloc: Global, globals: Vars) -> Result<Opened, Stop>
    ensures { Opens D.Disk globals disk.old disk.new result }
{
    let recovered = Switch::recover(disk, alloc, &globals);
    opened_with(alloc, recovered, globals)
}

fn opened_with(
    alloc: Global,
    recovered: Result<Switch, SwitchFault>,
    globals: Vars,
) -> Result<Opened, Stop>
    ensures { IsGivenFor globals recovered result }
{
    match recovered {
        Ok(switch) => Ok(Opened { switch, globals }),
        Err(SwitchFault::DiskFailed) => Err(Stop::DiskFailed),
        Err(SwitchFault::Memory) => Err(Stop::Memory),
        Err(SwitchFault::Damaged { path }) => match damage(alloc, &path) {
            Ok(stop) => Err(stop),
            Err(OutOfMemory) => Err(Stop::Memory),
        },
    }
}

// What is said of a path that is damaged.
fn damage(alloc: Global, path: &RelPath) -> Result<Stop, OutOfMemory>
    ensures { IfOk result (λ stop. stop ≡ damage_stop path.now) }
{
    let path = path.as_str();
    let line = format!(in alloc; "{path}: damaged\n")?;
    Ok(Stop::Refused {
        cause: Cause::Damaged,
        text: Items::from_vec(line.into_bytes()),
    })
}
