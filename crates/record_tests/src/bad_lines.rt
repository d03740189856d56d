//! Texts that are no record's.
use crate::answers::have_answers;
use std::test::Fail;

#[test]
fn a_text_that_ends_early(rt: HostRuntime) -> Result<(), Fail> {
    have_answers(
        &rt,
        &[
            (b"", "Err(BadLine { line: 1 })"),
            (b"osc-refutation 1", "Err(BadLine { line: 1 })"),
            (
                b"osc-refutation 1\nslots 1\nrules 3\nroom 3\nlow 0 -",
                "Err(BadLine { line: 5 })",
            ),
        ],
    )
}

#[test]
fn a_number_in_another_spelling(rt: HostRuntime) -> Result<(), Fail> {
    have_answers(
        &rt,
        &[
            (
                b"osc-refutation 1\nslots 01\nrules 3\nroom 3\nclose 0\nend\n",
                "Err(BadLine { line: 2 })",
            ),
            (
                b"osc-refutation 1\nslots 1000000000000000000\nrules 3\nroom 3\nclose 0\nend\n",
                "Err(BadLine { line: 2 })",
            ),
            (
                b"osc-refutation 1\nslots 1\nrules 3\nroom 3\nlow 0 -0\nclose 0\nclose 0\nend\n",
                "Err(BadLine { line: 5 })",
            ),
            (
                b"osc-refutation 1\nslots 1\nrules 3\nroom 3\nlow 0  1\nclose 0\nclose 0\nend\n",
                "Err(BadLine { line: 5 })",
            ),
            (
                b"osc-refutation 1\r\nslots 1\nrules 3\nroom 3\nclose 0\nend\n",
                "Err(BadLine { line: 1 })",
            ),
        ],
    )
}

#[test]
fn an_open_leaf_stands_in_undecided_records_alone(rt: HostRuntime) -> Result<(), Fail> {
    have_answers(
        &rt,
        &[
            (
                b"osc-refutation 1\nslots 1\nrules 3\nroom 3\nopen\nend\n",
                "Err(BadLine { line: 5 })",
            ),
            (
                b"osc-undecided 1\nslots 1\nrules 3\nroom 3\nclose 0\nend\n",
                "Err(BadLine { line: 6 })",
            ),
            (
                b"osc-undecided 1\nslots 1\nrules 3\nroom 3\nlow 0 -1\nclose 0\nhigh 0 5\nclose 0\nlow 0 3\nclose 1\nclose 2\nend\n",
                "Err(BadLine { line: 12 })",
            ),
        ],
    )
}

#[test]
fn nothing_comes_after_the_end(rt: HostRuntime) -> Result<(), Fail> {
    have_answers(
        &rt,
        &[
            (
                b"osc-refutation 1\nslots 1\nrules 3\nroom 3\nlow 0 -1\nclose 0\nhigh 0 5\nclose 0\nlow 0 3\nclose 1\nclose 2\nend\nend\n",
                "Err(BadLine { line: 13 })",
            ),
            (
                b"osc-refutation 1\nslots 1\nrules 3\nroom 3\nclose 0\nend\n\n",
                "Err(BadLine { line: 7 })",
            ),
        ],
    )
}

#[test]
fn a_bad_line_comes_before_one_that_is_not_accepted(rt: HostRuntime) -> Result<(), Fail> {
    have_answers(
        &rt,
        &[
            (
                b"osc-refutation 1\nslots 1\nrules 4\nroom 3\nlow 0 -1\nclose 0\nclose 0\n",
                "Err(BadLine { line: 8 })",
            ),
            (
                b"osc-refutation 1\nslots 1\nrules 4\nroom 3\nlow 0 -1\nclose 0\nhigh 0 5\nclose 0\nlow 0 3\nclose 1\nclose 2\n",
                "Err(BadLine { line: 12 })",
            ),
            (
                b"osc-refutation 1\nslots 1\nrules 3\nroom 3\nclose 0\nclose 0\nend\n",
                "Err(BadLine { line: 6 })",
            ),
        ],
    )
}
