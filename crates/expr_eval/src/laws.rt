//! Laws of the definitions of typing.

ghost use Rattle.expr_eval.specs.Bounded.{AreBounded, QuotientsAreBounded};
ghost use Rattle.expr_eval.specs.Resolved.{AreTypedOrRefused};

/// The law that, in a scope that leaves nothing open, each expression without a fault has a typed form, and a sound one
/// if its constants are within the limit.
pub fn typed_or_refused()
    ensures { AreTypedOrRefused }
{}

/// The laws of exponents, if those of the types and units are within their limits, as those of each source are: so are
/// those of each typed expression, and a quotient leaves the limits exactly if its own exponents do.
pub fn exponents_are_bounded()
    ensures expressions { AreBounded }
    ensures quotients { QuotientsAreBounded }
{}
