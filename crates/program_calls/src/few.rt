//! None, one or several of something.

ghost use Rattle.std.specs.Prelude.{◌≡◌};
ghost use Rattle.program_calls.specs.Fews.{at_most_one as one_at_most, few_more};

/// None, one, or several.
#[derive(Clone, Copy)]
pub(crate) enum Few<T> {
    Absent,
    One(T),
    Several,
}

impl<T: Copy> Few<T> {
    /// What there is, with one more.
    pub(crate) fn and(self, item: T) -> Few<T>
        ensures { result ≡ few_more self item }
    {
        match self {
            Few::Absent => Few::One(item),
            Few::One(_) | Few::Several => Few::Several,
        }
    }

    /// The one, if there is one. `None` stands for several.
    pub(crate) fn at_most_one(self) -> Option<Option<T>>
        ensures { result ≡ one_at_most self }
    {
        match self {
            Few::Absent => Some(None),
            Few::One(item) => Some(Some(item)),
            Few::Several => None,
        }
    }
}
