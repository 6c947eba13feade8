//! How output is written.

ghost use Rattle.std.specs.Prelude.{◌≡◌};
ghost use Rattle.nv_line.specs.Values.{format_named};

/// How output is written.
#[derive(Clone, Copy, Debug, PartialEq, Eq)]
pub enum OutputFormat {
    /// As text.
    Normal,
    /// As JSON, if what is shown has a JSON form.
    Json,
}

impl OutputFormat {
    /// Returns the format of this name.
    pub fn of(name: &str) -> Option<OutputFormat>
        ensures { result ≡ format_named name.now }
    {
        match name {
            "normal" => Some(OutputFormat::Normal),
            "json" => Some(OutputFormat::Json),
            _ => None,
        }
    }
}
