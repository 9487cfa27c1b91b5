//! The devices of a run.

ghost use Rattle.std.specs.Prelude.{◌≡◌, ◌≤◌, ◌<◌, ℕ, List, Option, Some, None, true, map, length, slice_set, is_some, IfOk};
ghost use Rattle.std.specs.Option.{option_copied};
ghost use Rattle.dev_board.specs.Board.{Given, IsChanged, Took, at, lives};

use crate::device::{Device, DeviceFailed};
use std::alloc::{AllocError, Global};
use std::marker::Model;

/// The device of this number failed.
#[derive(Clone, Copy, Debug, PartialEq, Eq)]
pub struct Failed(pub usize);

/// Devices by their numbers, of which some may have been let go.
// a struct whose bound has ghost members can't hold boxes: the functions ask for a `Device`, and the struct doesn't
#[derive(Drop)]
pub struct Devices<D: Drop> {
    places: Vec<Option<D>>,
}

impl<D: Drop> Model for Devices<D> {
    ghost use Rattle.std.specs.Prelude.{List, Option};

    ghost Value = { List (Option D) };

    ghost view = { λ devices. devices.places.items };
}

impl<D: Device> Devices<D> {
    /// These devices, in their order. Its cost is in their number. Where memory is wanting, they are dropped.
    pub fn new(alloc: Global, devices: Vec<D>) -> Result<Devices<D>, AllocError>
        ensures { IfOk result (λ made. made ≡ map Some devices.items) }
    {
        let places = devices
            .into_iter()
            .map(|device| Some(device))
            .collect(alloc)?;
        Ok(Devices { places })
    }

    /// How many there are, with those that were let go. It takes constant time.
    pub fn count(&self) -> usize
        ensures { result ≡ length self.now }
    {
        self.places.len()
    }

    /// The device of this number, none where it was let go or there is none. It takes constant time.
    pub fn get(&self, device: usize) -> Option<&D>
        ensures { option_copied result ≡ at self.now device }
    {
        match self.places.get(device) {
            Some(place) => place.as_ref(),
            None => None,
        }
    }
}

/// The devices of a run, as it goes on.
#[derive(Drop)]
pub struct Board<D: Drop> {
    devices: Devices<D>,
}

impl<D: Drop> Model for Board<D> {
    ghost use Rattle.std.specs.Prelude.{List, Option};

    ghost Value = { List (Option D) };

    ghost view = { λ board. board.devices };
}

impl<D: Device> Board<D> {
    /// A board of these devices. It takes constant time and no memory.
    pub fn new(devices: Devices<D>) -> Board<D>
        ensures { result ≡ devices }
    {
        Board { devices }
    }

    /// Whether a device is there that wasn't let go. It takes constant time.
    pub fn live(&self, device: usize) -> bool
        ensures { result ≡ lives self.now device }
    {
        self.devices.get(device).is_some()
    }

    /// Asks a device for bytes, as `Device::give` does, and fails where that fails. It costs what the device's give costs.
    pub fn pump_in(&mut self, device: usize, into: &mut [u8]) -> Result<usize, Failed>
        requires { lives self.old device ≡ true }
        ensures { (was : D) × (is : D) × IsChanged device was is self.old self.new
            × Given D.left D.held D.failed_reads D.failed_writes into.old into.new result was is }
    {
        match self.devices.places.get_mut(device) {
            Some(place) => match give_at(place, into) {
                Ok(count) => Ok(count),
                Err(_) => Err(Failed(device)),
            },
            None => unreachable!(),
        }
    }

    /// Hands bytes to a device, as `Device::take` does, and fails where that fails. It costs what the device's take costs.
    pub fn pump_out(&mut self, device: usize, bytes: &[u8]) -> Result<(), Failed>
        requires { lives self.old device ≡ true }
        ensures { (was : D) × (is : D) × IsChanged device was is self.old self.new
            × Took D.left D.held D.failed_reads D.failed_writes bytes.now result was is }
    {
        match self.devices.places.get_mut(device) {
            Some(place) => match take_at(place, bytes) {
                Ok(()) => Ok(()),
                Err(_) => Err(Failed(device)),
            },
            None => unreachable!(),
        }
    }

    /// Lets a device go, if it is there: it is dropped. It takes constant time beside that.
    pub fn drop_device(&mut self, device: usize)
        ensures { self.new ≡ slice_set self.old device None }
    {
        if let Some(place) = self.devices.places.get_mut(device) {
            *place = None;
        }
    }

    /// The devices as the run left them. It takes constant time and no memory.
    pub fn into_devices(self) -> Devices<D>
        ensures { result ≡ self }
    {
        let Board { devices } = self;
        devices
    }
}

/// Asks the device at a place for bytes.
fn give_at<D: Device>(place: &mut Option<D>, into: &mut [u8]) -> Result<usize, DeviceFailed>
    requires { is_some place.old ≡ true }
    ensures { (was : D) × (is : D) × (place.old ≡ Some was) × (place.new ≡ Some is)
        × Given D.left D.held D.failed_reads D.failed_writes into.old into.new result was is }
{
    match place {
        Some(device) => device.give(into),
        None => unreachable!(),
    }
}

/// Hands bytes to the device at a place.
fn take_at<D: Device>(place: &mut Option<D>, bytes: &[u8]) -> Result<(), DeviceFailed>
    requires { is_some place.old ≡ true }
    ensures { (was : D) × (is : D) × (place.old ≡ Some was) × (place.new ≡ Some is)
        × Took D.left D.held D.failed_reads D.failed_writes bytes.now result was is }
{
    match place {
        Some(device) => device.take(bytes),
        None => unreachable!(),
    }
}
