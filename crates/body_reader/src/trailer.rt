//! Finds the end of a trailer section byte by byte.
ghost use Rattle.std.specs.Prelude.{◌≡◌};
ghost use Rattle.body_reader.specs.steps.TrailerPlaces.{next_place};

/// Where a trailer section so far stands.
#[derive(Clone, Copy)]
pub enum TrailerPlace {
    /// At the beginning of a line.
    LineStart,
    /// Behind a CR at the beginning of a line.
    LineStartCr,
    /// Inside a line.
    InLine,
    /// Behind the empty line that ends the section.
    Ended,
}

impl TrailerPlace {
    /// Where the section stands after one more byte.
    pub fn after(self, byte: u8) -> TrailerPlace
        ensures { result ≡ next_place self byte }
    {
        match (self, byte) {
            (TrailerPlace::LineStart, b'\r') => TrailerPlace::LineStartCr,
            (TrailerPlace::LineStart | TrailerPlace::LineStartCr, b'\n') => TrailerPlace::Ended,
            (TrailerPlace::InLine, b'\n') => TrailerPlace::LineStart,
            (TrailerPlace::Ended, _) => TrailerPlace::Ended,
            _ => TrailerPlace::InLine,
        }
    }
}
