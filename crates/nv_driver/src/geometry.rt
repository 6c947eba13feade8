//! How many commands a driver has outstanding, and where their entries and data are placed.

ghost use Rattle.std.specs.Prelude.{◌≡◌, ◌%◌, ◌<◌, ◌≤◌, ◌↔◌, IfOk, IsTrue, MatchResult, None, Some};
ghost use Rattle.nv_driver.specs.Geometry.{IsGeometry, geometry_fault, is_between, is_offset};
ghost use Rattle.nv_driver.specs.Geometry.{is_window};

use crate::geometry_field::GeometryField;
use nv_host::is_page_size;

/// The shape of a driver's rings, pages and calls.
#[derive(Clone, Copy, Debug, PartialEq, Eq)]
pub struct Geometry {
    /// How many slots each ring has, 2 to 4,096. Section "Queue Size".
    pub depth: u32,
    /// How many bytes a page of the host's memory has: 4096, 8192, 16384, 32768 or 65536. Section
    /// "Controller Configuration", Memory Page Size.
    pub page_size: u32,
    /// Where a command's data begins in its first page, in bytes: a multiple of 4, less than the
    /// page size. Section "Physical Region Page Entry and List".
    pub offset: u32,
    /// Where a PRP list begins in its first page, in bytes: a multiple of 8, less than the page
    /// size. Section "Physical Region Page Entry and List".
    pub list_offset: u32,
    /// The greatest number of outstanding commands, from 1 to 16 and less than the depth.
    pub window: u32,
    /// The greatest number of entries of one turn, and the number of collected completions after
    /// which the head doorbell is written, from 1 to 4,096. Section "Completion Queue y Head
    /// Doorbell".
    pub pace: u32,
}

impl Default for Geometry {
    ghost is_default = { λ g. g
        ≡ record {
          depth = 32;
          page_size = 4096;
          offset = 0;
          list_offset = 0;
          window = 1;
          pace = 1;
        } };

    fn default() -> Geometry {
        Geometry {
            depth: 32,
            page_size: 4096,
            offset: 0,
            list_offset: 0,
            window: 1,
            pace: 1,
        }
    }
}

#[tactic(auto, unfolding(crate::specs::Geometry::is_between))]
fn is_between(low: u32, high: u32, x: u32) -> bool
    ensures value { result ≡ is_between low high x }
    ensures meaning { IsTrue result ↔ ((low ≤ x) × (x ≤ high)) }
{
    low <= x && x <= high
}

/// Returns whether a number is a multiple of `unit` and less than the page size.
#[tactic(auto, unfolding(crate::specs::Geometry::is_offset))]
fn is_offset(unit: u32, page_size: u32, x: u32) -> bool
    requires { 0 < unit }
    ensures value { result ≡ is_offset unit page_size x }
    ensures meaning { IsTrue result ↔ ((x % unit ≡ 0) × (x < page_size)) }
{
    x % unit == 0 && x < page_size
}

/// Returns whether a ring can have this number of outstanding commands.
#[tactic(auto, unfolding(crate::specs::Geometry::is_window))]
fn is_window(depth: u32, x: u32) -> bool
    ensures value { result ≡ is_window depth x }
    ensures meaning { IsTrue result ↔ ((1 ≤ x) × (x ≤ 16) × (x < depth)) }
{
    is_between(1, 16, x) && x < depth
}

impl Geometry {
    /// Returns an error with the first field, in the order of the fields, that is outside its
    /// limits, if there is one.
    pub fn check(&self) -> Result<(), GeometryField>
        ensures first { MatchResult result
            (λ _. geometry_fault self.now ≡ None)
            (λ field. geometry_fault self.now ≡ Some field) }
        ensures sound { IfOk result (λ _. IsGeometry self.now) }
    {
        if !is_between(2, 4096, self.depth) {
            return Err(GeometryField::Depth);
        }
        if !is_page_size(self.page_size) {
            return Err(GeometryField::PageSize);
        }
        if !is_offset(4, self.page_size, self.offset) {
            return Err(GeometryField::Offset);
        }
        if !is_offset(8, self.page_size, self.list_offset) {
            return Err(GeometryField::ListOffset);
        }
        if !is_window(self.depth, self.window) {
            return Err(GeometryField::Window);
        }
        if !is_between(1, 4096, self.pace) {
            return Err(GeometryField::Pace);
        }
        Ok(())
    }
}
