use std::test::Fail;

#[test]
fn laws_hold(_rt: HostRuntime) -> Result<(), Fail> {
    expr_value::worths_are_fractions();
    expr_eval::typed_or_refused();
    expr_eval::exponents_are_bounded();
    Ok(())
}
