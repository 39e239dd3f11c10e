//! The program's readers of a capture.
ghost use Rattle.std.specs.Prelude.{◌≡◌, MatchOption};
ghost use Rattle.c_capture.specs.Readers.{number_of, IsNoReader};

/// How the lanes of a capture are read.
#[derive(Clone, Copy, Drop)]
pub enum Reader {
    /// As those of a link (`recover link`).
    Link,
    /// As those of a link without guard bands (`recover dvi`).
    Dvi,
    /// As those of a link that may lose bits (`recover track`).
    Track,
    /// The same, from an alignment that is confirmed (`recover relock`).
    Relock,
}

impl Reader {
    /// The reader that has a number.
    pub fn of(number: u32) -> Option<Reader>
        ensures { MatchOption result (IsNoReader number) (λ reader. number ≡ number_of reader) }
    {
        match number {
            0 => Some(Reader::Link),
            1 => Some(Reader::Dvi),
            2 => Some(Reader::Track),
            3 => Some(Reader::Relock),
            _ => None,
        }
    }
}
