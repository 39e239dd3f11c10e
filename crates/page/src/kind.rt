//! What the lanes of a page's capture carry.
ghost use Rattle.std.specs.Prelude.{◌≡◌, MatchOption};
ghost use Rattle.page.specs.Kinds.{number_of, IsNoKind};

/// What the lanes carry.
#[derive(Clone, Copy, Drop)]
pub enum PageKind {
    /// A link (`recover link`).
    Link,
    /// A link without guard bands (`recover dvi`).
    Dvi,
}

impl PageKind {
    /// The kind that has a number.
    pub fn of(number: u32) -> Option<PageKind>
        ensures { MatchOption result (IsNoKind number) (λ kind. number ≡ number_of kind) }
    {
        match number {
            0 => Some(PageKind::Link),
            1 => Some(PageKind::Dvi),
            _ => None,
        }
    }
}
