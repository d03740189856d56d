ghost use Rattle.std.specs.Prelude.{◌≡◌};
ghost use Rattle.fault_texts.specs.Said.{said, said_by};

/// What is said of a code or a status.
#[derive(Debug, Clone, Copy)]
pub struct CodeText {
    /// What is wrong: one line without a full stop.
    pub title: &'static str,
    /// What the code means, and where its fault stands. Here and below each line is at most 80 bytes long and
    /// ended by a line feed.
    pub meaning: &'static str,
    /// Of a code a file `main.osc` with the fault; of a status the commands that end with it.
    pub example: &'static str,
    /// The line that is written for the example.
    pub answer: &'static str,
    /// How to mend it.
    pub mending: &'static str,
}

/// The title, meaning, example, answer and mending of a code.
pub(crate) type Texts = (
    &'static str,
    &'static str,
    &'static str,
    &'static str,
    &'static str,
);

impl CodeText {
    /// The texts of a code under their names.
    pub(crate) fn of(texts: Texts) -> CodeText
        ensures { said_by result ≡ said texts.entry.0.now texts.entry.1.now texts.entry.2.now texts.entry.3.now texts.entry.4.now }
    {
        let (title, meaning, example, answer, mending) = texts;
        CodeText {
            title,
            meaning,
            example,
            answer,
            mending,
        }
    }
}

/// The texts of a code, of which all but the title and the answer are written line by line.
macro_rules! texts {
    (
        title: $title:literal,
        meaning: [$($meaning:literal),* $(,)?],
        example: [$($example:literal),* $(,)?],
        answer: $answer:literal,
        mending: [$($mending:literal),* $(,)?],
    ) => {
        (
            $title,
            concat!($($meaning, "\n"),*),
            concat!($($example, "\n"),*),
            $answer,
            concat!($($mending, "\n"),*),
        )
    };
}

pub(crate) use texts;
