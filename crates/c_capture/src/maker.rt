//! The program's makers of a capture.
ghost use Rattle.std.specs.Prelude.{◌≡◌, MatchOption};
ghost use Rattle.c_capture.specs.Makers.{number_of, IsNoMaker};

/// What a listing describes.
#[derive(Clone, Copy, Drop)]
pub enum Maker {
    /// A link (`make link`).
    Link,
    /// A link without guard bands (`make dvi`).
    Dvi,
    /// Frames with content (`make content`).
    Content,
}

impl Maker {
    /// The maker that has a number.
    pub fn of(number: u32) -> Option<Maker>
        ensures { MatchOption result (IsNoMaker number) (λ maker. number ≡ number_of maker) }
    {
        match number {
            0 => Some(Maker::Link),
            1 => Some(Maker::Dvi),
            2 => Some(Maker::Content),
            _ => None,
        }
    }
}
