ghost use Rattle.std.specs.Prelude.{◌≡◌};
ghost use Rattle.command_words.specs.Texts.{check_help, export_help, flat_help, general_help, generate_help, make_help, migrate_help, verify_help, version_text};

const GENERAL_HELP: &str = concat!(
    "osc reads a scenario of driving, written in a profile of OpenSCENARIO DSL 2.1,\n",
    "searches for a concrete run of it, and writes the run, or a proof that there is\n",
    "none within the bounds. It checks runs and such proofs.\n",
    "\n",
    "Usage:\n",
    "  osc generate FILE SCENARIO [OPTIONS]\n",
    "  osc check FILE SCENARIO RUN [OPTIONS]\n",
    "  osc export FILE SCENARIO RUN --as FORM [OPTIONS]\n",
    "  osc verify FILE SCENARIO RECORD [OPTIONS]\n",
    "  osc flat FILE SCENARIO [OPTIONS]\n",
    "  osc make N\n",
    "  osc migrate RUN\n",
    "  osc explain [CODE]\n",
    "  osc help [COMMAND]\n",
    "  osc --version\n",
    "\n",
    "Commands:\n",
    "  generate   writes a run of a scenario; for its options: osc generate --help\n",
    "  check      says whether a run is an instance; its words: osc check --help\n",
    "  export     writes a run as csv, xosc, xodr or html: osc export --help\n",
    "  verify     says whether a record is right; its words: osc verify --help\n",
    "  flat       lists the slots and rules of a scenario: osc flat --help\n",
    "  make       writes a run of a made scenario with N vehicles: osc make --help\n",
    "  migrate    writes a run as text of form 2: osc migrate --help\n",
    "  explain    writes what a code means, for example 201, or lists all codes\n",
    "  help       writes this text, or the help of a command; --help and -h this text\n",
    "  --version  writes the version; so does -V\n",
    "\n",
    "Statuses, and what osc writes to standard output:\n",
    "  0  success: what was asked for; of check and verify: yes\n",
    "  1  there is no instance: the record that shows it\n",
    "     of check and export: no CLAUSE PATH FILE:LINE:COLUMN\n",
    "     (only constraints and modifiers have a place)\n",
    "     of verify: no LINE, the first line that isn't accepted\n",
    "  2  undecided after all cuts: the record; of verify: open CUTS\n",
    "  3  the source is refused: fault CODE FILE:LINE:COLUMN\n",
    "     (an imported file that isn't there is fault 301)\n",
    "  4  the words are refused: words\n",
    "  5  the file of a run is no JSON: text json\n",
    "     its JSON is no run: text POINTER, the first place that differs\n",
    "     a record's text is none: text LINE, the first line that differs\n",
    "  6  the main file, a run or a record isn't there: missing FILE\n",
    "     a source is longer than 1048576 bytes, a run than 16777216, or a record\n",
    "     than 268435456: long FILE\n",
    "     a file can't be read: shelf FILE\n",
    "  7  standard output failed: a prefix of the text, or nothing\n",
    "  8  out of memory: nothing\n",
    "  9  the words can't be read, for example if one isn't UTF-8: nothing\n",
);

/// The help of a command that reads a scenario: what is its own is written line by line.
macro_rules! scene_help {
    (
        does: [$($does:literal),* $(,)?],
        usage: $usage:literal,
        words: [$($word:literal),* $(,)?],
        names: $names:literal,
        options: [$($option:literal),* $(,)?],
        writes: [$($writes:literal),* $(,)?] $(,)?
    ) => {
        concat!(
            $($does, "\n",)*
            "\n",
            "Usage:\n",
            $usage, "\n",
            "\n",
            "Words:\n",
            "  FILE       the source file\n",
            "  SCENARIO   the name of the scenario: NAME or ACTOR.NAME\n",
            $($word, "\n",)*
            "\n",
            "Options, each at most once, as --ticks N or --ticks=N:\n",
            "  --ticks N  the last tick that a run may have: 1 to 600, default 100\n",
            "  --tick N   the length of a tick in milliseconds: 10 to 1000, default 100\n",
            "  --lanes N  the lanes of the road: 1 to 8, default 3\n",
            "  --road N   the length of the road in metres: 1 to 10000, default 1000\n",
            $($option, "\n",)*
            "  -h, --help writes this text\n",
            "\n",
            "After --, each word is ", $names, ", even if it begins with -.\n",
            "\n",
            $($writes, "\n",)*
            "\n",
            "For the statuses: osc help\n",
        )
    };
}

const GENERATE_HELP: &str = scene_help! {
    does: [
        "osc generate reads a source file and writes a run of one of its scenarios to",
        "standard output, as one line of JSON.",
    ],
    usage: "  osc generate FILE SCENARIO [OPTIONS]",
    words: [],
    names: "FILE or SCENARIO",
    options: [
        "  --seed N   the seed of what is drawn at random:",
        "             0 to 18446744073709551615, default 0",
        "  --cuts N   the most cuts of a search: 1 to 1000000, default 200000",
        "  --tries N  the most searches, each next one with the next seed, up to one that",
        "             is decided: 1 to 100, default 1",
    ],
    writes: [
        "A source file with a scenario named top:",
        "  scenario top:",
        "      x: int",
        "      keep(x in [3..3])",
        "",
        "The run is an instance of the scenario: osc check says yes to it. With status 1",
        "it writes a record in place of a run, which shows that there is no instance",
        "within the bounds. With status 2 it writes a record of a search that ended",
        "undecided: more tries or more cuts may help. osc verify reads both.",
    ],
};

const CHECK_HELP: &str = scene_help! {
    does: [
        "osc check reads a source file and a run, and says whether the run is an",
        "instance of one of the source's scenarios.",
    ],
    usage: "  osc check FILE SCENARIO RUN [OPTIONS]",
    words: [
        "  RUN        the file with the run, as osc generate writes it: JSON, at most",
        "             16777216 bytes",
    ],
    names: "FILE, SCENARIO or RUN",
    options: [],
    writes: [
        "It writes yes if the run is an instance, and else no, the first clause that",
        "fails, its path, and its place in the source if it is about a constraint or a",
        "modifier.",
    ],
};

const EXPORT_HELP: &str = scene_help! {
    does: [
        "osc export reads a source file and a run, checks the run as osc check does, and",
        "writes it in another form.",
    ],
    usage: "  osc export FILE SCENARIO RUN --as FORM [OPTIONS]",
    words: [
        "  RUN        the file with the run, as osc generate writes it: JSON, at most",
        "             16777216 bytes",
    ],
    names: "FILE, SCENARIO or RUN",
    options: [
        "  --as FORM  the form, which must be given:",
        "             csv   a table: a line for each vehicle and tick",
        "             xosc  ASAM OpenSCENARIO XML 1.1, over the road in road.xodr",
        "             xodr  that road: ASAM OpenDRIVE 1.6",
        "             html  a page for a browser, which shows the run",
        "  --ego PATH only starts this vehicle in xosc: the simulator drives it",
        "  --lane-width MM",
        "             the width of a lane in millimetres: 1000 to 10000, default 3500",
    ],
    writes: [
        "If the run is an instance, its text in this form is written. Else it writes no,",
        "and what osc check writes after it. The options of the setting are to be those",
        "with which the run was written.",
    ],
};

const VERIFY_HELP: &str = scene_help! {
    does: [
        "osc verify reads a source file and a record, and says whether the record is",
        "right about one of the source's scenarios.",
    ],
    usage: "  osc verify FILE SCENARIO RECORD [OPTIONS]",
    words: [
        "  RECORD     the file with the record, as osc generate writes it with status 1",
        "             or 2: at most 268435456 bytes",
    ],
    names: "FILE, SCENARIO or RECORD",
    options: [],
    writes: [
        "It writes yes if the record shows that there is no instance within the bounds,",
        "and open CUTS if its lines are accepted and leave that undecided after so many",
        "cuts. Else it writes no LINE, the first line that isn't accepted. The options",
        "are to be those with which the record was written.",
    ],
};

const FLAT_HELP: &str = scene_help! {
    does: [
        "osc flat reads a source file and lists the flat form of one of its scenarios:",
        "the slots that a run fills, and the rules that it meets.",
    ],
    usage: "  osc flat FILE SCENARIO [OPTIONS]",
    words: [],
    names: "FILE or SCENARIO",
    options: [],
    writes: [
        "It writes how many slots there are, and a line for each with the least and the",
        "greatest number that it can hold. Then it writes how many rules there are, and a",
        "line for each with the place or the path that it comes from.",
    ],
};

const MAKE_HELP: &str = concat!(
    "osc make makes a scenario for N vehicles, and writes a run of it to standard\n",
    "output, as one line of JSON.\n",
    "\n",
    "Usage:\n",
    "  osc make N\n",
    "\n",
    "Words:\n",
    "  N          the number of vehicles, and of the parallel blocks in which each of\n",
    "             them drives: 1 to 16\n",
    "\n",
    "Options:\n",
    "  -h, --help writes this text\n",
    "\n",
    "The run is searched with 5 * N ticks, 3 lanes, a road of 1000 metres, seed 0 and\n",
    "at most 200000 cuts. That it is an instance is proved. After it stands the line\n",
    "\n",
    "  make N phases P end E check yes\n",
    "\n",
    "where P is the number of phases of the run, and E is its end. Without a run, osc\n",
    "writes a record in place of both, as osc generate does.\n",
    "\n",
    "For the statuses: osc help\n",
);

const MIGRATE_HELP: &str = concat!(
    "osc migrate reads a run and writes it to standard output as text of form 2, as\n",
    "one line of JSON. It reads no source file.\n",
    "\n",
    "Usage:\n",
    "  osc migrate RUN\n",
    "\n",
    "Words:\n",
    "  RUN        the file with the run, of form 1 or 2: JSON, at most\n",
    "             16777216 bytes\n",
    "\n",
    "Options:\n",
    "  -h, --help writes this text\n",
    "\n",
    "After --, each word is RUN, even if it begins with -.\n",
    "\n",
    "Text of form 2 tells the length of a tick in milliseconds. Text of form 1\n",
    "doesn't: its ticks have 100 milliseconds.\n",
    "\n",
    "For the statuses: osc help\n",
);

const VERSION_TEXT: &str = "osc 0.1.0\n";

/// What `osc` does, its commands, and the statuses of all of them.
///
/// Each line of a help text has at most 80 bytes and ends with a line feed.
pub fn general_help() -> &'static str
    ensures { result.now ≡ general_help }
{
    GENERAL_HELP
}

/// The words and options of `osc generate`.
pub fn generate_help() -> &'static str
    ensures { result.now ≡ generate_help }
{
    GENERATE_HELP
}

/// The words and options of `osc check`.
pub fn check_help() -> &'static str
    ensures { result.now ≡ check_help }
{
    CHECK_HELP
}

/// The words and options of `osc export`.
pub fn export_help() -> &'static str
    ensures { result.now ≡ export_help }
{
    EXPORT_HELP
}

/// The words and options of `osc verify`.
pub fn verify_help() -> &'static str
    ensures { result.now ≡ verify_help }
{
    VERIFY_HELP
}

/// The words and options of `osc flat`.
pub fn flat_help() -> &'static str
    ensures { result.now ≡ flat_help }
{
    FLAT_HELP
}

/// The word of `osc make`, and what it makes.
pub fn make_help() -> &'static str
    ensures { result.now ≡ make_help }
{
    MAKE_HELP
}

/// The word of `osc migrate`, and what it writes.
pub fn migrate_help() -> &'static str
    ensures { result.now ≡ migrate_help }
{
    MIGRATE_HELP
}

/// The program's name and version, as one line.
pub fn version_text() -> &'static str
    ensures { result.now ≡ version_text }
{
    VERSION_TEXT
}
