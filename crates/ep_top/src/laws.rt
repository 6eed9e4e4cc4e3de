// Laws of the definitions that the top call's contract is made of.
ghost use Rattle.ep_top.specs.Laws.{OneEnd};

/// Over a source that hadn't ended before, the ends that come behind all whole frames exclude each other: where the
/// conditions of two of them hold, they are one. With the clause of `run_session`, that the condition of its end holds,
/// each of these comes exactly where its condition does, but that want of memory and a fault of writing may come in its
/// place. Refused words have a clause of their own.
pub fn one_end()
    ensures { OneEnd }
{}
