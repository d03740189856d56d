//! Records of which every line is accepted.
use crate::answers::have_answers;
use crate::rows::REFUTATION;
use std::test::Fail;

#[test]
fn a_refutation_leaves_nothing_open(rt: HostRuntime) -> Result<(), Fail> {
    have_answers(&rt, &[(REFUTATION, "Ok(Refuted)")])
}

#[test]
fn an_undecided_record_has_its_cuts_counted(rt: HostRuntime) -> Result<(), Fail> {
    have_answers(
        &rt,
        &[
            (
                b"osc-undecided 1\nslots 1\nrules 3\nroom 1\nlow 0 5\nopen\nopen\nend\n",
                "Ok(Open { cuts: 1 })",
            ),
            (
                b"osc-undecided 1\nslots 1\nrules 3\nroom 0\nopen\nend\n",
                "Ok(Open { cuts: 0 })",
            ),
        ],
    )
}
