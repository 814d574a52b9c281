// The settings section.
ghost use Rattle.std.specs.Prelude.{◌≡◌, ℕ, List, ◌∷◌, ◌++◌, ◌≢◌, IfOk, IfErr, OnOk, OnErr};
ghost use Rattle.boardfile.specs.Layout.{settings_bytes};
ghost use Rattle.boardfile.specs.Fits.{SettingsFit};
ghost use Rattle.boardfile.specs.Faults.{NoFault, SettingsChecks, SettingsFaulty};
ghost use Rattle.boardfile.specs.declared.parts.Settings.{Settings};

use crate::count::take_count;
use crate::fault::{Fault, FaultKind, Section};
use crate::parts::{DeviceKind, LineKind, NoLayout, PolicyKind, Settings};

// How many bytes a record has.
pub(crate) const LEN: usize = 8;

// The settings whose record the bytes begin with, and the bytes after it.
fn take_settings(bytes: &[u8]) -> Result<(Settings, &[u8]), NoLayout>
    ensures layout { IfOk result (λ p. bytes.now ≡ settings_bytes p.0 ++ p.1.now) }
    ensures none { OnErr result ((s : Settings) (t : List ℕ) → bytes.now ≢ settings_bytes s ++ t) }
{
    let [
        clients,
        places,
        tasks,
        line,
        policy,
        high,
        low,
        device,
        rest @ ..,
    ] = bytes
    else {
        return Err(NoLayout);
    };
    let settings = Settings {
        clients: *clients,
        places: *places,
        tasks: *tasks,
        line: LineKind::try_from(*line)?,
        policy: PolicyKind::try_from([*policy, *high, *low])?,
        device: DeviceKind::try_from(*device)?,
    };
    Ok((settings, rest))
}

// The tests of settings that fit their record. Not by a line's own test: its refusals would have to be turned into
// faults one by one.
pub(crate) fn check(settings: Settings) -> Result<(), Fault>
    ensures fit { OnOk result (SettingsFit settings) }
    ensures first { IfErr result (SettingsChecks settings NoFault) }
{
    let Settings {
        clients,
        places,
        tasks,
        line,
        ..
    } = settings;
    if !(1..=32).contains(&clients) {
        return Err(Fault::new(FaultKind::Clients, Section::Settings, 0));
    }
    let least = match line {
        LineKind::FirstCome => 1,
        LineKind::RoundRobin => clients,
    };
    if !(least..=clients).contains(&places) {
        return Err(Fault::new(FaultKind::Places, Section::Settings, 0));
    }
    if tasks == 0 {
        return Err(Fault::new(FaultKind::Tasks, Section::Settings, 0));
    }
    Ok(())
}

// The settings of a file, and the bytes after their section.
pub(crate) fn read_settings(bytes: &[u8]) -> Result<(Settings, &[u8]), Fault>
    ensures layout { IfOk result (λ p. bytes.now ≡ 0 ∷ 1 ∷ (settings_bytes p.0 ++ p.1.now)) }
    ensures fit { IfOk result (λ p. SettingsFit p.0) }
    ensures first { IfErr result (SettingsFaulty bytes.now NoFault) }
{
    let (count, record) = take_count(Section::Settings, bytes)?;
    if count != 1 {
        return Err(Fault::new(FaultKind::Count, Section::Settings, 0));
    }
    if record.len() < LEN {
        return Err(Fault::new(FaultKind::Missing, Section::Settings, 0));
    }
    let Ok((settings, rest)) = take_settings(record) else {
        return Err(Fault::new(FaultKind::Unfit, Section::Settings, 0));
    };
    check(settings)?;
    Ok((settings, rest))
}
