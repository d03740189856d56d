use osc_base::{Place, Text};

/// A name, and where it stands.
#[derive(Drop)]
pub struct Ident {
    pub place: Place,
    pub text: Text,
}

/// A name, or a name with its owner before it: `drive` or `vehicle.drive`.
#[derive(Drop)]
pub struct QName {
    pub first: Ident,
    pub second: Option<Ident>,
}

/// A number without a sign: `digits` divided by 10 to the power `places`. A whole number has places 0.
#[derive(Clone, Copy, PartialEq, Eq)]
pub struct Digits {
    pub place: Place,
    pub digits: u64,
    pub places: u8,
}

/// A number with or without a minus before it. The place is the minus's, or the number's if there
/// is none.
#[derive(Clone, Copy, PartialEq, Eq)]
pub struct Signed {
    pub place: Place,
    pub minus: bool,
    pub number: Digits,
}
