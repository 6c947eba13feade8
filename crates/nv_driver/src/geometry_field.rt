//! The names of the fields of a geometry.

ghost use Rattle.std.specs.Prelude.{◌≡◌};
ghost use Rattle.nv_driver.specs.Names.{field_name};

use std::fmt;

/// A field of a geometry.
#[derive(Clone, Copy, Debug, PartialEq, Eq)]
pub enum GeometryField {
    Depth,
    PageSize,
    Offset,
    ListOffset,
    Window,
    Pace,
}

impl GeometryField {
    /// Returns the field's name, as in `Geometry`.
    #[tactic(auto, unfolding(crate::specs::Names::field_name))]
    pub fn name(self) -> &'static str
        ensures { result.now ≡ field_name self }
    {
        match self {
            GeometryField::Depth => "depth",
            GeometryField::PageSize => "page_size",
            GeometryField::Offset => "offset",
            GeometryField::ListOffset => "list_offset",
            GeometryField::Window => "window",
            GeometryField::Pace => "pace",
        }
    }
}

impl fmt::Display for GeometryField {
    ghost use Rattle.std.specs.Prelude.{Some};
    ghost use Rattle.nv_driver.specs.Names.{field_name};

    ghost output = { λ field. Some (field_name field) };

    fn fmt<W: fmt::Write>(&self, f: &mut fmt::Formatter<W>) -> fmt::Result {
        f.write_str(self.name())
    }
}
