//! Laws of what is counted. Each function does nothing: its contract is the law.
ghost use Rattle.plain_tally.specs.Laws.{PinnedOfList};
ghost use Rattle.plain_tally.specs.Rooms.{CutGrows, ShortAtEnd};

/// What is summed over a list of documents under different keys is what is pinned of a world with these documents.
pub fn pinned_of_list()
    ensures { PinnedOfList }
{}

/// What is counted one event at a time is what the whole history's checkpoints are, and by the last of its worlds and
/// these there is room for a call exactly where the history says so.
pub fn events_are_counted_one_by_one()
    ensures short { ShortAtEnd }
    ensures cut { CutGrows }
{}
