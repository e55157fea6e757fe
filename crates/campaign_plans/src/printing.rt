//! The output of `plan`.
ghost use Rattle.std.specs.Prelude.{◌≡◌, ◌≤◌, ◌++◌, length, map, find, option_copied, OnOk, OnErr, IsErrOf};
ghost use Rattle.std.specs.Option.{option_map_or};
ghost use Rattle.outer_traits.specs.Faults.{Rose};
ghost use Rattle.outer_traits.specs.Sinks.{Took, TookFront};
ghost use Rattle.update_plans.specs.Choosing.{version_at};
ghost use Rattle.update_plans.specs.Plans.{has_id};
ghost use Rattle.campaign_plans.specs.Printed.{count_line, plan_text, port_of, step_line, step_lines};

use client_scripts::parts::put_number;
use command_outputs::OutputStop;
use fw_facts::DeviceView;
use guid_ids::DeviceId;
use outer_traits::{Sink, write_whole};
use release_catalogue::ReleaseRef;
use std::alloc::{AllocError, Global};
use update_log::Facts;
use update_plans::{PlanStep, version_at};

/// Writes how many steps a plan has, and a line for each: its number, the port of its device, and the
/// version of its release.
///
/// `SinkFault` comes only where the sink's faults rose in this call. After a stop the sink has taken
/// a front of the output.
pub fn write_plan<T: Sink>(
    alloc: Global,
    facts: &Facts,
    views: &[DeviceView],
    steps: &[PlanStep],
    out: &mut T,
) -> Result<(), OutputStop>
    ensures whole { OnOk result (Took (plan_text facts.now views.now steps.now) (T.taken out.old) (T.taken out.new)) }
    ensures front { OnErr result (TookFront (plan_text facts.now views.now steps.now) (T.taken out.old) (T.taken out.new)) }
    ensures nothing { IsErrOf result OutputStop.NoMemory → T.taken out.new ≡ T.taken out.old }
    ensures cause { IsErrOf result OutputStop.SinkFault → Rose (T.faults out.old) (T.faults out.new) }
    ensures quiet { OnOk result (T.faults out.new ≡ T.faults out.old) }
    ensures quiet_no_memory { IsErrOf result OutputStop.NoMemory → T.faults out.new ≡ T.faults out.old }
    ensures counts { T.faults out.old ≤ T.faults out.new }
{
    let mut text = Vec::new(alloc);
    put_plan(&mut text, facts, views, steps)?;
    write_whole(out, &text)?;
    Ok(())
}

fn put_plan(
    out: &mut Vec<u8>,
    facts: &Facts,
    views: &[DeviceView],
    steps: &[PlanStep],
) -> Result<(), AllocError>
    ensures { OnOk result (out.new.items ≡ out.old.items ++ plan_text facts.now views.now steps.now) }
{
    put_count(out, steps.len())?;
    put_steps(out, facts, views, steps)
}

#[tactic(auto, unfolding(crate::specs::Printed::count_line))]
fn put_count(out: &mut Vec<u8>, count: usize) -> Result<(), AllocError>
    ensures { OnOk result (out.new.items ≡ out.old.items ++ count_line count) }
{
    out.extend_from_slice(b"plan ")?;
    put_number(out, count as u64)?;
    out.extend_from_slice(b"\n")
}

// A line for each step.
fn put_steps(
    out: &mut Vec<u8>,
    facts: &Facts,
    views: &[DeviceView],
    steps: &[PlanStep],
) -> Result<(), AllocError>
    ensures { OnOk result (out.new.items ≡ out.old.items ++ step_lines facts.now views.now 1 steps.now) }
{
    for (index, step) in steps.iter().enumerate() {
        let port = port_of(views, &step.device);
        let version = version_of(facts, step.release);
        put_step(out, index as u64 + 1, port, version)?;
    }
    Ok(())
}

#[tactic(auto, unfolding(crate::specs::Printed::step_line))]
fn put_step(out: &mut Vec<u8>, number: u64, port: &[u8], version: &[u8]) -> Result<(), AllocError>
    ensures { OnOk result (out.new.items ≡ out.old.items ++ step_line number port.now version.now) }
{
    out.extend_from_slice(b"  ")?;
    put_number(out, number)?;
    out.extend_from_slice(b" ")?;
    out.extend_from_slice(port)?;
    out.extend_from_slice(b" ")?;
    out.extend_from_slice(version)?;
    out.extend_from_slice(b"\n")
}

// The port of a device.
fn port_of<'a>(views: &'a [DeviceView], device: &DeviceId) -> &'a [u8]
    ensures { result.now ≡ port_of views.now device.now }
{
    match view_of(views, device) {
        Some(view) => view.sheet.port.bytes(),
        None => &[],
    }
}

fn view_of<'a>(views: &'a [DeviceView], device: &DeviceId) -> Option<&'a DeviceView>
    ensures { option_copied result ≡ find (has_id device.now) views.now }
{
    views.iter().find(|view| view.sheet.device == *device)
}

// The version of a release.
fn version_of(facts: &Facts, at: ReleaseRef) -> &[u8]
    ensures { result.now ≡ version_at facts.now at }
{
    match version_at(facts, at) {
        Some(version) => version.bytes(),
        None => &[],
    }
}
