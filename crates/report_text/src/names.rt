//! The names of devices and of pools.
ghost use Rattle.std.specs.Prelude.{◌≡◌, ◌++◌, ◌<◌, length};
ghost use Rattle.report_text.specs.Pools.{HasDeviceOfPool};
ghost use Rattle.stack_base.specs.Names.{name_of_device, pool_name};

use stack_base::{DevId, PoolId, Stack};

/// The name of a device.
pub(crate) fn device_name(stack: &Stack, device: DevId) -> &[u8]
    requires { device.0 < length stack.now.devices.items }
    ensures { result.now ≡ name_of_device stack.now device.0 }
{
    stack.devices[device.0 as usize].name.as_str().as_bytes()
}

/// The name of a pool in two parts: whose it is, and what it holds.
pub fn pool_parts(stack: &Stack, pool: PoolId) -> (&[u8], &[u8])
    requires { HasDeviceOfPool stack.now pool }
    ensures { result.0.now ++ result.1.now ≡ pool_name stack.now pool }
{
    match pool {
        PoolId::FsBios => (b"fs", b".bios"),
        PoolId::FsVecs => (b"fs", b".vecs"),
        PoolId::Bios(device) => (device_name(stack, device), b".bios"),
        PoolId::Records(device) => (device_name(stack, device), b".records"),
    }
}
