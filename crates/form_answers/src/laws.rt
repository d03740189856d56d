ghost use Rattle.form_answers.specs.Laws.{OneVerdict, RefutedMeansNone, SomeVerdict, YesMeansNone};

/// The law that a scene and the texts of a shelf have one reply at most.
pub fn one_verdict()
    ensures { OneVerdict }
{}

/// The law that they have some reply: it can't be that they have none.
pub fn some_verdict()
    ensures { SomeVerdict }
{}

/// The law that a scene with a refutation has no instance.
pub fn refuted_means_none()
    ensures { RefutedMeansNone }
{}

/// The law that a scene about which `yes` is replied has no instance.
pub fn yes_means_none()
    ensures { YesMeansNone }
{}
