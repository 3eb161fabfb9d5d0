//! Where the members of mirrors differ from the first.
ghost use Rattle.std.specs.Prelude.{◌≡◌, ◌==◌, ◌<◌, ◌≤◌, length, MatchOption};
ghost use Rattle.stack_base.specs.Stack.{IsStack};
ghost use Rattle.stack_base.specs.Tree.{size as size_of, tree, legs_of};
ghost use Rattle.model_disks.specs.Runs.{EndsWithin, IsApart};
ghost use Rattle.mirror_scrub.specs.Seen.{AreDisksOf, EndsApart, IsNextStretch, held, mirror_member, unlike_count, unlikes};
ghost use Rattle.mirror_scrub.specs.Stretches.{IsPair, flags_in};
ghost use Rattle.mirror_scrub.specs.Text.{all_alike, mirror_alike};

use crate::pair::Pair;
use model_disks::Disk;
use stack_base::{DevId, Kind, Range, Stack};

/// How many members a mirror has, and 0 for any other device.
pub fn legs(stack: &Stack, dev: DevId) -> u32
    requires stack { IsStack stack.now }
    requires device { dev.0 < length stack.now.devices.items }
    ensures { result ≡ legs_of (tree stack.now dev.0) }
{
    let device = stack.device(dev);
    match device.kind {
        Kind::Mirror { .. } => device.members.len() as u32,
        _ => 0,
    }
}

// The member at a place of a mirror.
fn leg_at(stack: &Stack, mirror: DevId, place: u32) -> DevId
    requires stack { IsStack stack.now }
    requires mirror { mirror.0 < length stack.now.devices.items }
    requires place { place < legs_of (tree stack.now mirror.0) }
    ensures known { result.0 < length stack.now.devices.items }
    ensures inside { size_of (tree stack.now mirror.0) ≤ size_of (tree stack.now result.0) }
    ensures leg { mirror_member (tree stack.now mirror.0) place ≡ tree stack.now result.0 }
{
    stack.device(mirror).members[place as usize]
}

// A member of a mirror beside the first.
fn pair<'d>(stack: &'d Stack, disks: &'d [Disk], mirror: DevId, leg: u32) -> Pair<'d>
    requires stack { IsStack stack.now }
    requires disks { AreDisksOf stack.now disks.now }
    requires mirror { mirror.0 < length stack.now.devices.items }
    requires leg { leg < legs_of (tree stack.now mirror.0) }
    ensures pair { IsPair result }
    ensures flags { flags_in result ≡ unlikes (held disks.now) (tree stack.now mirror.0) leg }
    ensures size { result.size ≡ size_of (tree stack.now mirror.0) }
{
    Pair {
        stack,
        disks,
        one: leg_at(stack, mirror, leg),
        other: leg_at(stack, mirror, 0),
        size: stack.size(mirror),
    }
}

/// How many sectors of a mirror are unlike on its member at a place.
pub fn unlike(stack: &Stack, disks: &[Disk], mirror: DevId, leg: u32) -> u64
    requires stack { IsStack stack.now }
    requires disks { AreDisksOf stack.now disks.now }
    requires mirror { mirror.0 < length stack.now.devices.items }
    requires leg { leg < legs_of (tree stack.now mirror.0) }
    ensures { result ≡ unlike_count (held disks.now) (tree stack.now mirror.0) leg }
{
    pair(stack, disks, mirror, leg).count()
}

/// The first stretch of sectors of a mirror that are unlike on its member at a place, as long as they follow one another,
/// that starts at `from` or behind it. `from` is not inside a stretch: sector 0, the end of a stretch and what is past the
/// mirror are not.
pub fn next_unlike(
    stack: &Stack,
    disks: &[Disk],
    mirror: DevId,
    leg: u32,
    from: u64,
) -> Option<Range>
    requires stack { IsStack stack.now }
    requires disks { AreDisksOf stack.now disks.now }
    requires mirror { mirror.0 < length stack.now.devices.items }
    requires leg { leg < legs_of (tree stack.now mirror.0) }
    requires apart { IsApart (unlikes (held disks.now) (tree stack.now mirror.0) leg) from }
    ensures stretches { IsNextStretch (held disks.now) (tree stack.now mirror.0) leg from result }
    ensures place { MatchOption result (Unit {0}) (EndsWithin from (size_of (tree stack.now mirror.0))) }
    ensures apart { EndsApart (held disks.now) (tree stack.now mirror.0) leg result }
{
    let pair = pair(stack, disks, mirror, leg);
    if from >= pair.size {
        return None;
    }
    pair.next_differing(from)
}

// Whether no sector of a mirror is unlike on its member at a place.
fn leg_alike(stack: &Stack, disks: &[Disk], mirror: DevId, leg: u32) -> bool
    requires stack { IsStack stack.now }
    requires disks { AreDisksOf stack.now disks.now }
    requires mirror { mirror.0 < length stack.now.devices.items }
    requires leg { leg < legs_of (tree stack.now mirror.0) }
    ensures { result ≡ (unlike_count (held disks.now) (tree stack.now mirror.0) leg == 0) }
{
    let pair = pair(stack, disks, mirror, leg);
    pair.first(0, true) == pair.size
}

// Whether no sector of a mirror is unlike on any member, as it is with other devices.
fn mirror_alike(stack: &Stack, disks: &[Disk], mirror: DevId) -> bool
    requires stack { IsStack stack.now }
    requires disks { AreDisksOf stack.now disks.now }
    requires mirror { mirror.0 < length stack.now.devices.items }
    ensures { result ≡ mirror_alike stack.now (held disks.now) mirror.0 }
{
    'legs: for leg in 1..legs(stack, mirror) {
        if !leg_alike(stack, disks, mirror, leg) {
            return false;
        }
    }
    true
}

/// Whether no sector of any mirror is unlike on any member.
pub fn all_alike(stack: &Stack, disks: &[Disk]) -> bool
    requires stack { IsStack stack.now }
    requires disks { AreDisksOf stack.now disks.now }
    ensures { result ≡ all_alike stack.now (held disks.now) }
{
    'devices: for number in 0..stack.devices.len() {
        if !mirror_alike(stack, disks, DevId(number as u32)) {
            return false;
        }
    }
    true
}
