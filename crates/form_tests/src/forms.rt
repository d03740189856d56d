use crate::scenes::{PLACE, scene};
use flat_forms::rule_names;
use osc_base::RuleName;
use std::test::Fail;

#[test]
fn rules_have_names(rt: HostRuntime) -> Result<(), Fail> {
    let alloc = rt.alloc();
    let scene = scene(alloc, 1)?;
    let names = rule_names(alloc, &scene)?;
    let names = names.as_slice();
    assert_eq!(rt; names.len(), 9);
    assert_eq!(rt; names.first(), Some(&RuleName::Default { place: PLACE }));
    assert_eq!(rt; names.get(1), Some(&RuleName::Hard { place: PLACE }));
    Ok(())
}
