ghost use Rattle.program_load.specs.Loading.{OneLoad, SomeLoad};

/// The law that files allow one program, or one cause for which none is loaded.
pub fn one_load()
    ensures { OneLoad }
{}

/// The law that files allow a program or such a cause: it can't be that they allow neither.
pub fn some_load()
    ensures { SomeLoad }
{}
