// The laws of the division of a text into frames and a rest. Each is a function without an effect, whose clause is
// the law: it holds of every text, however it comes in pieces.
ghost use Rattle.mcbp_frame.specs.Stream.{StreamDivides};
ghost use Rattle.mcbp_frame.specs.Laws.{OneDivision, SomeDivision, RestIsOfAKind, KindsAreApart, DivisionGoesOn};

/// A text divides into frames and a rest in one way at most, since a frame's length stands in its header.
pub fn one_division()
    ensures { OneDivision }
{}

/// Each text divides into frames and a rest.
pub fn some_division()
    ensures { SomeDivision }
{}

/// The rest of a division is partial, begins with another byte than a request, or says a body that is too long.
pub fn rest_is_of_a_kind()
    ensures { RestIsOfAKind }
{}

/// No rest is of two of these kinds.
pub fn kinds_are_apart()
    ensures { KindsAreApart }
{}

/// As more bytes come, the frames stay, and the rest with the new bytes divides into those that follow.
pub fn division_goes_on()
    ensures { DivisionGoesOn }
{}

/// What a feeder handed out and what it holds are the division of all that it was fed, however that was cut: it begins
/// so, and each piece that is fed and each frame that is handed out keeps it.
pub fn stream_divides()
    ensures { StreamDivides }
{}
