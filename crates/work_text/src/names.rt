//! Devices of a stack, as a text names them.
ghost use Rattle.std.specs.Prelude.{◌≡◌, ◌<◌, ◌≤◌, ◌==◌, length, position};
ghost use Rattle.std.specs.List.{list_any};
ghost use Rattle.std.specs.Option.{option_map};
ghost use Rattle.std.specs.Str.{bytes_eq};
ghost use Rattle.stack_base.specs.Stack.{IsStack};
ghost use Rattle.decl_text.specs.Accepting.{shown_devices};
ghost use Rattle.decl_text.specs.Checks.{is_among};
ghost use Rattle.decl_text.specs.Fit.{IsFitStack};
ghost use Rattle.decl_text.specs.Known.{all_members, device_of};

use decl_text::Word;
use stack_base::{DevId, Device, Stack};

/// The device with this name, where there is one.
pub(crate) fn device_of(stack: &Stack, name: &Word<'_>) -> Option<DevId>
    requires few { length stack.now.devices.items ≤ 32 }
    requires fit { IsFitStack stack.now }
    ensures { option_map (λ dev. dev.0) result ≡ device_of (shown_devices stack.now) name.now }
{
    let place = place_of(stack, name)?;
    Some(DevId(place as u32))
}

// The place of the device with this name. Writes go to devices that are no members, of which the last is one, so the search begins there.
fn place_of(stack: &Stack, name: &Word<'_>) -> Option<usize>
    requires { IsFitStack stack.now }
    ensures { result ≡ position (λ device. bytes_eq device.name.bytes name.now) stack.now.devices.items }
{
    let mut place = stack.devices.len();
    'searching: while place > 0 {
        place -= 1;
        if is_named(&stack.devices[place], name) {
            return Some(place);
        }
    }
    None
}

fn is_named(device: &Device, name: &Word<'_>) -> bool
    ensures { result ≡ bytes_eq device.now.name.bytes name.now }
{
    device.name.as_str().as_bytes() == name.bytes()
}

/// Whether the device is a member of another, which was declared behind it.
pub(crate) fn is_member(stack: &Stack, dev: DevId) -> bool
    requires stack { IsStack stack.now }
    requires known { dev.0 < length stack.now.devices.items }
    ensures { result ≡ is_among (all_members (shown_devices stack.now)) dev.0 }
{
    let (_, behind) = stack.devices.split_at(dev.0 as usize + 1);
    holds(behind, dev)
}

// Whether the device is a member of one of these.
fn holds(devices: &[Device], dev: DevId) -> bool
    ensures { result ≡ list_any (λ device. list_any (λ member. member.0 == dev.0) device.members.items) devices.now }
{
    devices.iter().any(|device| has_member(device, dev))
}

fn has_member(device: &Device, dev: DevId) -> bool
    ensures { result ≡ list_any (λ member. member.0 == dev.0) device.now.members.items }
{
    device.members.iter().any(|member| member.0 == dev.0)
}
