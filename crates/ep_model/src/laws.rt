//! Laws of histories and of answers. Each function does nothing: its contract is the law, over all worlds.
ghost use Rattle.ep_model.specs.Laws.{LegalHistoriesGrow, FrontsAreLegal, BareFrontsAreLegal, SetIsReadBack, SetKeepsOthers, DecimalIsReadBack};

/// Histories are kept by noting one event at a time, and read a front at a time. So what is noted only where
/// it may happen is legal as a whole, and at each moment so far.
pub fn legal_histories_grow()
    ensures grow { LegalHistoriesGrow }
    ensures fronts { FrontsAreLegal }
    ensures bare { BareFrontsAreLegal }
{}

/// What the answers mean to a client: a Set that was answered with success is read back, with its value, its
/// flags and the CAS of its reply, at each moment before its expiry, and no other key is touched.
pub fn set_is_read_back()
    ensures read { SetIsReadBack }
    ensures others { SetKeepsOthers }
{}

/// The text that a counter stores is a number value, and its number is the counter's.
pub fn decimal_is_read_back()
    ensures { DecimalIsReadBack }
{}
