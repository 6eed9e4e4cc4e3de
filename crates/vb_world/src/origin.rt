// What a vBucket's history began with.
ghost use Rattle.std.specs.Prelude.{◌≡◌, Option, None, Some};
ghost use Rattle.std.specs.Borrow.{ftrue};
ghost use Rattle.ep_model.specs.declared.data.StartData.{StartData};

use hold_stage::Beginning;
use std::marker::Model;

// The start of a vBucket's history, once it is put. It takes no bytes.
#[derive(Drop)]
pub struct Origin {
    pub ghost start: { Option StartData },
}

impl Model for Origin {
    ghost also_owns = { λ _. ftrue };
}

impl Origin {
    pub(crate) fn new() -> Origin
        ensures { result.start ≡ None }
    {
        Origin {}
    }

    pub(crate) fn at<B: Beginning>() -> Origin
        ensures { result.start ≡ Some B.start }
    {
        Origin {}
    }
}
