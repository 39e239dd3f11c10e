//! The options of `make`.
ghost use Rattle.std.specs.Prelude.{◌≡◌};
ghost use Rattle.command_line.specs.Forms.{option_id};

/// An option of `make`.
#[derive(Clone, Copy)]
pub enum OptionName {
    /// `--offset O`: how many bits at the front of each lane are left out.
    Offset,
    /// `--skew A,B,C`: how many bits more each lane leaves out.
    Skew,
    /// `--bits B`: the most bits of a lane.
    Bits,
    /// `--version V`: the version of the capture.
    Version,
}

impl OptionName {
    /// The name without its dashes.
    pub(crate) fn id<'a>(self) -> &'a str
        ensures { result.now ≡ option_id self }
    {
        match self {
            OptionName::Offset => "offset",
            OptionName::Skew => "skew",
            OptionName::Bits => "bits",
            OptionName::Version => "version",
        }
    }
}
