//! Laws of the definitions of values.

ghost use Rattle.expr_value.specs.Worth.{WorthsAreFractions};

/// The law that the value of a sound expression is a fraction with a denominator above 0, whatever its paths hold.
pub fn worths_are_fractions()
    ensures { WorthsAreFractions }
{}
