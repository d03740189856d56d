//! Texts of records about a scenario without a run.

use crate::cases::answer_is;
use std::test::Fail;

/// A number that is to be greater and less than 3.
const SOURCE: &str = "scenario top:
    x: int
    keep(x in [0..5])
    keep(x > 3)
    keep(x < 3)
";

/// Texts that differ in one line from the refutation that the search finds, and what is said of them.
const ROWS: [(&str, &str); 15] = [
    (
        "osc-refutation 1\nslots 1\nrules 3\nroom 3\nlow 0 -1\nclose 0\nhigh 0 5\nclose 0\nlow 0 3\nclose 1\nclose 2\nend\n",
        "0 yes\n",
    ),
    ("", "5 text 1\n"),
    (
        "osc-refutation 1\nslots 01\nrules 3\nroom 3\nlow 0 -1\nclose 0\nhigh 0 5\nclose 0\nlow 0 3\nclose 1\nclose 2\nend\n",
        "5 text 2\n",
    ),
    (
        "osc-refutation 1\nslots 1\nrules 3\nroom 1000001\nlow 0 -1\nclose 0\nhigh 0 5\nclose 0\nlow 0 3\nclose 1\nclose 2\nend\n",
        "1 no 4\n",
    ),
    (
        "osc-refutation 1\nslots 1\nrules 3\nroom 3\nlow 0 -0\nclose 0\nhigh 0 5\nclose 0\nlow 0 3\nclose 1\nclose 2\nend\n",
        "5 text 5\n",
    ),
    (
        "osc-refutation 1\nslots 1\nrules 3\nroom 3\nopen\nclose 0\nhigh 0 5\nclose 0\nlow 0 3\nclose 1\nclose 2\nend\n",
        "5 text 5\n",
    ),
    (
        "osc-refutation 1\nslots 1\nrules 3\nroom 3\nlow 1 0\nclose 0\nhigh 0 5\nclose 0\nlow 0 3\nclose 1\nclose 2\nend\n",
        "1 no 5\n",
    ),
    (
        "osc-refutation 1\nslots 1\nrules 3\nroom 3\nlow 0 -1\nclose 3\nhigh 0 5\nclose 0\nlow 0 3\nclose 1\nclose 2\nend\n",
        "1 no 6\n",
    ),
    (
        "osc-undecided 1\nslots 1\nrules 3\nroom 3\nlow 0 -1\nclose 0\nhigh 0 5\nclose 0\nlow 0 3\nclose 1\nclose 2\nend\n",
        "5 text 12\n",
    ),
    (
        "osc-refutation 1\nslots 1\nrules 3\nroom 3\nlow 0 -1\nclose 0\nhigh 0 5\nclose 0\nlow 0 3\nclose 1\nclose 2\nend\nend\n",
        "5 text 13\n",
    ),
    (
        "osc-refutation 1\nslots 1\nrules 4\nroom 3\nlow 0 -1\nclose 0\nhigh 0 5\nclose 0\nlow 0 3\nclose 1\nclose 2\n",
        "5 text 12\n",
    ),
    (
        "osc-refutation 1\nslots 1\nrules 3\nroom 3\nlow 0 1000000000\nclose 0\nclose 0\nend\n",
        "1 no 5\n",
    ),
    (
        "osc-refutation 1\nslots 1\nrules 3\nroom 3\nlow 0 -",
        "5 text 5\n",
    ),
    (
        "osc-refutation 1\nslots 1\nrules 4\nroom 3\nlow 0 -1\nclose 0\nhigh 0 5\nclose 0\nlow 0 3\nclose 1\nclose 2\nend\n",
        "1 no 3\n",
    ),
    (
        "osc-refutation 1\nslots 1\nrules 3\nroom 2\nlow 0 -1\nclose 0\nhigh 0 5\nclose 0\nlow 0 3\nclose 1\nclose 2\nend\n",
        "1 no 9\n",
    ),
];

#[test]
fn records_with_one_line_changed(rt: HostRuntime) -> Result<(), Fail> {
    for (record, want) in ROWS.as_slice() {
        answer_is(&rt, "verify main.osc top written", SOURCE, *record, *want)?;
    }
    Ok(())
}
