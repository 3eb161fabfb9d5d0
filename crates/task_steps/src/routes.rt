//! The devices of a stack, as tasks see them: where a bio comes to, and what becomes of it there.
ghost use Rattle.std.specs.Prelude.{◌≡◌, ◌<◌, true, length, slice_get, IfOk, MatchOption, Some};
ghost use Rattle.stack_base.specs.declared.stack.Device.{Device as Devices};
ghost use Rattle.stack_base.specs.Stack.{IsStack};
ghost use Rattle.bioset_pools.specs.Sets.{waits_first};
ghost use Rattle.run_machine.specs.Submissions.{legs_of, is_cut};
ghost use Rattle.task_steps.specs.Within.{IsWithinDevice};
ghost use Rattle.task_steps.specs.Routed.{routing_setup, IsRoute, IsRouteOf, IsManner, IsFirstCut, HasNoFirst, IsBelow, Stays, IsLanded, IsCutAt, IsLegAt, Routing, routed_tree};

pub(crate) mod driver;

use crate::routes::driver::{Driver, Manner, driver_of, members_of};
use arrayvec::ArrayVec;
use bio_records::{Bio, Pad, Waits};
use bioset_pools::waits_first;
use stack_base::{DevId, MapLaw, Range, Stack};
use std::alloc::{AllocError, Global};
use std::marker::Model;
use std::snapshot::Snapshot;

/// The first piece of a bio at a device that cuts it.
#[derive(Clone, Copy)]
pub struct Cut {
    /// How many sectors it has.
    pub sectors: u64,
    /// The member that it goes to.
    pub dev: DevId,
    /// Its first sector there.
    pub start: u64,
}

// What is kept of a device.
#[derive(Drop)]
pub struct Route {
    driver: Driver,
    // By the index that a piece has: a driver that cuts knows its members by that alone.
    members: ArrayVec<DevId, 8>,
    rescuer: bool,
}

/// A stack with its drivers, and how many places the book of each writer has: what tasks know of devices, seen as the stack and these
/// numbers. Each call goes by the number of the device, and takes no memory.
pub struct Routes {
    routes: Vec<Route>,
    places: [u32; 8],
    // The stack that they are of, which has no bytes here.
    stack: Snapshot<Stack>,
}

// By hand, as that of `Kind`.
impl Drop for Routes {
    fn drop(self) {
        let Routes {
            routes,
            places: _,
            stack,
        } = self;
        drop(routes);
        drop(stack);
    }
}

impl Model for Routes {
    ghost use Rattle.task_steps.specs.Routed.{Routing, IsRouted};

    ghost Value = { Routing };

    ghost view = { λ r. record { stack = r.stack.value; places = r.places } };

    ghost invariant = { λ r. IsRouted r.stack.value r.routes.items };
}

// What is kept of a device.
fn route_of(stack: &Stack, dev: DevId) -> Route
    requires stack { IsStack stack.now }
    requires device { dev.0 < length stack.now.devices.items }
    ensures { (device : Devices) → slice_get stack.now.devices.items dev.0 ≡ Some device → IsRoute stack.now device result }
{
    let device = stack.device(dev);
    Route {
        driver: driver_of(stack, dev),
        members: members_of(device),
        rescuer: device.rescuer,
    }
}

impl Routes {
    /// The devices and drivers of a stack, where the book of each writer has so many places, by the writer's number. Nothing of the stack
    /// is borrowed, and no name is copied.
    ///
    /// # Errors
    /// Where there is no memory.
    pub fn new(alloc: Global, stack: &Stack, places: [u32; 8]) -> Result<Routes, AllocError>
        requires { IsStack stack.now }
        ensures { IfOk result (λ routes. routes ≡ record { stack = stack.now; places = places }) }
    {
        let mut routes = Vec::with_capacity(alloc, stack.devices.len())?;
        'routing: for number in 0..stack.devices.len() {
            routes.push(route_of(stack, DevId(number as u32)))?;
        }
        Ok(Routes {
            routes,
            places,
            stack: Snapshot::of(stack),
        })
    }

    /// A stack that drivers were made of is one that a declaration may have.
    pub fn known(&self)
        ensures { IsStack self.now.stack }
    {
        let _ = &self.routes;
    }

    /// How many devices there are.
    pub fn count(&self) -> u32
        ensures { result ≡ (routing_setup self.now).count }
    {
        self.routes.len() as u32
    }

    // What is kept of a device.
    fn route(&self, dev: DevId) -> &Route
        requires { dev.0 < length self.now.stack.devices.items }
        ensures { IsRouteOf self.now.stack dev.0 result.now }
    {
        &self.routes[dev.0 as usize]
    }

    /// Whether the device's set has a rescuer.
    pub fn rescuer(&self, dev: DevId) -> bool
        requires { dev.0 < length self.now.stack.devices.items }
        ensures { result ≡ (routing_setup self.now).rescuer dev.0 }
    {
        self.route(dev).rescuer
    }

    /// How many places the writer's book has: none, where there is no such writer.
    pub fn places(&self, writer: u32) -> u32
        ensures { result ≡ (routing_setup self.now).places writer }
    {
        self.places.get(writer as usize).copied().unwrap_or(0)
    }

    /// Whether the first attempt at a bio of the device's set waits, where the task has these lists: it does unless the
    /// set has a rescuer and a bio is in the lists (`bio_alloc_bioset`, `block/bio.c`).
    pub fn waits_first<L: Waits>(&self, dev: DevId, lists: &L) -> bool
        requires { dev.0 < length self.now.stack.devices.items }
        ensures { result ≡ waits_first ((routing_setup self.now).rescuer dev.0) (L.waiting lists.now) }
    {
        waits_first(self.rescuer(dev), lists)
    }

    // The first piece of a bio, where its device is one that cuts.
    #[inline(always)] // its caller takes the cut apart at once
    fn first(&self, bio: &Bio) -> Option<Cut>
        requires { IsWithinDevice self.now.stack bio.now }
        ensures { MatchOption result (HasNoFirst self.now.stack bio.now) (IsFirstCut self.now.stack bio.now) }
    {
        let route = self.route(bio.dev);
        let piece = route.driver.piece(bio.range.start, bio.range.len)?;
        Some(Cut {
            sectors: piece.len,
            dev: route.members[piece.member as usize],
            start: piece.at,
        })
    }

    // The bio as the member gets it, where it is one piece.
    fn below(&self, bio: &Bio) -> Option<Bio>
        requires { IsWithinDevice self.now.stack bio.now }
        ensures { MatchOption result (Stays self.now.stack bio.now) (IsBelow self.now.stack bio.now) }
    {
        let cut = self.first(bio)?;
        if cut.sectors < bio.range.len {
            return None;
        }
        Some(Bio {
            dev: cut.dev,
            range: Range {
                start: cut.start,
                ..bio.range
            },
            ..*bio
        })
    }

    /// Where a bio comes to: it is handed on as it is, from device to device, as long as it is one piece (`bio_set_dev` and `bi_sector`,
    /// `drivers/md/raid0.c`).
    pub fn land(&self, start: Bio) -> Bio
        requires { IsWithinDevice self.now.stack start }
        ensures { IsLanded self.now.stack start result }
    {
        let mut bio = start;
        'down: while let Some(next) = self.below(&bio) {
            bio = next;
        }
        bio
    }

    /// What the device does with a bio that it does not hand on as it is.
    pub fn manner(&self, dev: DevId) -> Manner
        requires { dev.0 < length self.now.stack.devices.items }
        ensures { IsManner (routing_setup self.now) dev (routed_tree self.now dev) result }
    {
        self.route(dev).driver.manner()
    }

    /// The first piece of a bio that its device cuts: how long it is, and where it goes (`bio_split`, `block/bio.c`, as drivers call it).
    pub fn cut(&self, bio: &Bio) -> Cut
        requires within { IsWithinDevice self.now.stack bio.now }
        requires cut { is_cut (routed_tree self.now bio.now.dev) bio.now.range ≡ true }
        ensures { IsCutAt (routing_setup self.now) self.now.stack bio.now result }
    {
        self.known();
        self.first(bio).unwrap()
    }

    /// How many legs a bio has at the device: as many as it has members, if it is a mirror, and else none.
    pub fn legs(&self, dev: DevId) -> u32
        requires { dev.0 < length self.now.stack.devices.items }
        ensures { result ≡ legs_of (routed_tree self.now dev) }
    {
        self.route(dev).driver.legs()
    }

    /// One leg of a bio at a mirror, counted from 0, with the node at this place: what stands in the element that it gets
    /// (`bio_alloc_clone`, `drivers/md/raid1.c`).
    pub fn leg(&self, bio: &Bio, leg: u32, node: u32) -> (Bio, Pad)
        requires within { IsWithinDevice self.now.stack bio.now }
        requires leg { leg < legs_of (routed_tree self.now bio.now.dev) }
        ensures { IsLegAt self.now.stack bio.now leg node result }
    {
        self.route(bio.dev).driver.leg(bio, leg, node)
    }
}
