//! Records of which a line isn't accepted.
use crate::answers::have_answers;
use std::test::Fail;

#[test]
fn a_cut_leaves_both_parts_a_value(rt: HostRuntime) -> Result<(), Fail> {
    have_answers(
        &rt,
        &[
            // at the upper end, and below the lower
            (
                b"osc-refutation 1\nslots 1\nrules 3\nroom 3\nlow 0 1000000000\nclose 0\nclose 0\nend\n",
                "Ok(No { line: 5 })",
            ),
            (
                b"osc-refutation 1\nslots 1\nrules 3\nroom 3\nlow 0 -1000000001\nclose 0\nclose 0\nend\n",
                "Ok(No { line: 5 })",
            ),
        ],
    )
}

#[test]
fn the_second_part_begins_one_above_the_value(rt: HostRuntime) -> Result<(), Fail> {
    // there the rule isn't false
    have_answers(
        &rt,
        &[(
            b"osc-refutation 1\nslots 1\nrules 3\nroom 3\nlow 0 1\nclose 1\nclose 2\nend\n",
            "Ok(No { line: 7 })",
        )],
    )
}

#[test]
fn a_cut_and_a_close_name_what_is_there(rt: HostRuntime) -> Result<(), Fail> {
    have_answers(
        &rt,
        &[
            (
                b"osc-refutation 1\nslots 1\nrules 3\nroom 3\nlow 1 0\nclose 0\nclose 0\nend\n",
                "Ok(No { line: 5 })",
            ),
            (
                b"osc-refutation 1\nslots 1\nrules 3\nroom 3\nlow 0 -1\nclose 3\nclose 0\nend\n",
                "Ok(No { line: 6 })",
            ),
        ],
    )
}

#[test]
fn the_numbers_are_the_flat_forms(rt: HostRuntime) -> Result<(), Fail> {
    have_answers(
        &rt,
        &[
            (
                b"osc-refutation 1\nslots 2\nrules 3\nroom 3\nclose 0\nend\n",
                "Ok(No { line: 2 })",
            ),
            (
                b"osc-refutation 1\nslots 1\nrules 4\nroom 3\nclose 0\nend\n",
                "Ok(No { line: 3 })",
            ),
            (
                b"osc-refutation 1\nslots 1\nrules 4\nroom 3\nlow 0 -1\nclose 0\nhigh 0 5\nclose 0\nlow 0 3\nclose 1\nclose 2\nend\n",
                "Ok(No { line: 3 })",
            ),
        ],
    )
}

#[test]
fn no_more_cuts_stand_above_one_another_than_there_is_room(rt: HostRuntime) -> Result<(), Fail> {
    have_answers(
        &rt,
        &[
            (
                b"osc-refutation 1\nslots 1\nrules 3\nroom 1000001\nclose 0\nend\n",
                "Ok(No { line: 4 })",
            ),
            (
                b"osc-refutation 1\nslots 1\nrules 3\nroom 2\nlow 0 -1\nclose 0\nhigh 0 5\nclose 0\nlow 0 3\nclose 1\nclose 2\nend\n",
                "Ok(No { line: 9 })",
            ),
        ],
    )
}
