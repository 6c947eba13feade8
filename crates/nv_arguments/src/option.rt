//! The options of the program.

ghost use Rattle.std.specs.Prelude.{◌≡◌};
ghost use Rattle.nv_arguments.specs.ArgumentOption.{name_of, options};

/// An option of the program. Each takes a value.
#[derive(Clone, Copy)]
pub(crate) enum ArgumentOption {
    Subsystem,
    Depth,
    PageSize,
    Offset,
    ListOffset,
    Window,
    Pace,
}

impl ArgumentOption {
    /// Returns all options.
    pub(crate) fn all() -> &'static [ArgumentOption]
        ensures { result.now ≡ options }
    {
        &[
            ArgumentOption::Subsystem,
            ArgumentOption::Depth,
            ArgumentOption::PageSize,
            ArgumentOption::Offset,
            ArgumentOption::ListOffset,
            ArgumentOption::Window,
            ArgumentOption::Pace,
        ]
    }

    /// Returns the option's name, which follows `--`.
    pub(crate) fn name<'a>(self) -> &'a str
        ensures { result.now ≡ name_of self }
    {
        match self {
            ArgumentOption::Subsystem => "subsystem",
            ArgumentOption::Depth => "depth",
            ArgumentOption::PageSize => "page-size",
            ArgumentOption::Offset => "offset",
            ArgumentOption::ListOffset => "list-offset",
            ArgumentOption::Window => "window",
            ArgumentOption::Pace => "pace",
        }
    }
}
