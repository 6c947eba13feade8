//! A geometry that was checked.

ghost use Rattle.std.specs.Prelude.{◌≡◌, MatchResult, None, Some};
ghost use Rattle.nv_driver.specs.Geometry.{geometry_fault};

use crate::geometry::Geometry;
use crate::geometry_field::GeometryField;
use std::marker::Model;

/// A geometry whose fields are all within their limits, in the types that rings and turns use.
#[derive(Clone, Copy)]
pub struct CheckedGeometry {
    pub depth: u16,
    pub page_size: u32,
    pub offset: u32,
    pub list_offset: u32,
    pub window: u16,
    pub pace: u16,
}

impl Model for CheckedGeometry {
    ghost use Rattle.nv_driver.specs.Geometry.{IsGeometry};
    ghost use Rattle.nv_driver.specs.declared.geometry.Geometry.{Geometry};

    ghost Value = { Geometry };

    ghost use Rattle.nv_driver.specs.CheckedGeometry.{geometry_of};

    ghost view = { geometry_of };

    ghost invariant = { λ g. IsGeometry (geometry_of g) };

    ghost inverse = { λ g. record {
      depth = g.depth;
      page_size = g.page_size;
      offset = g.offset;
      list_offset = g.list_offset;
      window = g.window;
      pace = g.pace;
    } };
}

impl CheckedGeometry {
    /// Returns the checked geometry, or the first field that is outside its limits.
    pub(crate) fn new(geometry: Geometry) -> Result<CheckedGeometry, GeometryField>
        ensures { MatchResult result
            (λ checked. (checked ≡ geometry) × (geometry_fault geometry ≡ None))
            (λ field. geometry_fault geometry ≡ Some field) }
    {
        geometry.check()?;
        Ok(CheckedGeometry {
            depth: u16::try_from(geometry.depth).unwrap(),
            page_size: geometry.page_size,
            offset: geometry.offset,
            list_offset: geometry.list_offset,
            window: u16::try_from(geometry.window).unwrap(),
            pace: u16::try_from(geometry.pace).unwrap(),
        })
    }
}
