//! What the steps of a plan ask for.
ghost use Rattle.std.specs.Prelude.{◌≡◌, ◌≤◌, ◌+◌, ◌++◌, length, codes, decimal, None};
ghost use Rattle.arrayvec.specs.ArrayVec.{array_vec_len};
ghost use Rattle.update_plans.specs.Plans.{no_flags};
ghost use Rattle.update_plans.specs.Tags.{IsTag};

use crate::plan::PlanStep;
use arrayvec::ArrayVec;
use device_list::Selector;
use fw_base::Name;
use itoa::Buffer;
use update_log::{InstallFlags, Request};
use version_formats::Version;

/// The request of a step: for its device by its ID, and that version. It tries no earlier entry again.
pub fn request_of(tag: &Name, number: u32, step: &PlanStep, version: Version) -> Request
    requires tag { IsTag tag.now }
    requires number { number ≤ 8192 }
    ensures { result ≡ record { tag = tag.now ++ codes "-" ++ decimal number; device = Selector.Id step.now.device; version = version; flags = no_flags; retry_of = None } }
{
    Request {
        tag: step_tag(tag, number),
        device: Selector::Id(step.device),
        version,
        flags: InstallFlags {
            offline: false,
            allow_reinstall: false,
            allow_older: false,
        },
        retry_of: None,
    }
}

// The tag of a step: that of the plan, a dash and the step's number.
fn step_tag(tag: &Name, number: u32) -> Name
    requires tag { IsTag tag.now }
    requires number { number ≤ 8192 }
    ensures { result ≡ tag.now ++ codes "-" ++ decimal number }
{
    let text = tag_text(tag, number);
    match Name::read(text.as_slice()) {
        Ok(name) => name,
        Err(_) => unreachable!(),
    }
}

fn tag_text(tag: &Name, number: u32) -> ArrayVec<u8, 64>
    requires tag { IsTag tag.now }
    requires number { number ≤ 8192 }
    ensures { result.items ≡ tag.now ++ codes "-" ++ decimal number }
{
    let mut text = ArrayVec::new();
    append(&mut text, tag.bytes());
    text.push(b'-');
    let mut buffer = Buffer::new();
    append(&mut text, buffer.format(number).as_bytes());
    text
}

// Appends a part for which there is room.
fn append(text: &mut ArrayVec<u8, 64>, part: &[u8])
    requires { array_vec_len text.old + length part.now ≤ 64 }
    ensures items { text.new.items ≡ text.old.items ++ part.now }
    ensures len { array_vec_len text.new ≡ array_vec_len text.old + length part.now }
{
    let _ = text.try_extend_from_slice(part);
}
