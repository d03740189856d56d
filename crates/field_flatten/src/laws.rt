ghost use Rattle.field_flatten.specs.Exactness.{ScenesAreExact, FlatFormsAreExact, FlatFormsAreFlat};

/// The law that the rules of a scene say exactly what the scene says: of each item, of the run of a
/// point, and of the point of a run.
pub fn scenes_are_exact()
    ensures { ScenesAreExact }
{}

/// The law that the points of a scene's flat form are the instances of the scene. If no point of the
/// box meets all rules, no run is an instance.
pub fn flat_forms_are_exact()
    ensures { FlatFormsAreExact }
{}

/// The law that the ends of a scene's flat form are a box, and that each of its rules may be judged
/// on it.
pub fn flat_forms_are_flat()
    ensures { FlatFormsAreFlat }
{}
