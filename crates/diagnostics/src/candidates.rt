//! The kinds of token, each as a text of which the lexer makes one such token.

/// A text that makes one token, and what that token is called in a message.
#[derive(Clone, Copy)]
pub struct Candidate {
    pub text: &'static str,
    pub name: &'static str,
}

/// Marks that close or part something.
pub const CLOSING: [Candidate; 4] = [
    Candidate {
        text: ")",
        name: "`)`",
    },
    Candidate {
        text: "]",
        name: "`]`",
    },
    Candidate {
        text: ":",
        name: "`:`",
    },
    Candidate {
        text: ",",
        name: "`,`",
    },
];

/// The end of a line.
pub const LINE_END: Candidate = Candidate {
    text: "\n",
    name: "the end of the line",
};

/// The first token of a line that is wider than every open block can be.
pub const BLOCK: Candidate = Candidate {
    text: concat!(
        "                                                                ",
        "                                                                x",
    ),
    name: "a line that is indented more",
};

/// Names: any one, else those that the grammar knows.
pub const NAMES: [Candidate; 4] = [
    Candidate {
        text: "x",
        name: "a name",
    },
    Candidate {
        text: "SI",
        name: "`SI`",
    },
    Candidate {
        text: "factor",
        name: "`factor`",
    },
    Candidate {
        text: "offset",
        name: "`offset`",
    },
];

/// Numbers: any one, else those that the grammar tells apart.
pub const NUMBERS: [Candidate; 3] = [
    Candidate {
        text: "1.5",
        name: "a number",
    },
    Candidate {
        text: "10",
        name: "a whole number",
    },
    Candidate {
        text: "9",
        name: "a whole number up to 9",
    },
];

/// Tokens that stand together only where an expression begins.
pub const OPERANDS: [Candidate; 8] = [
    Candidate {
        text: "1x",
        name: "a number with a unit",
    },
    Candidate {
        text: "''",
        name: "a string",
    },
    Candidate {
        text: "(",
        name: "`(`",
    },
    Candidate {
        text: "[",
        name: "`[`",
    },
    Candidate {
        text: "true",
        name: "`true`",
    },
    Candidate {
        text: "false",
        name: "`false`",
    },
    Candidate {
        text: "it",
        name: "`it`",
    },
    Candidate {
        text: "range",
        name: "`range`",
    },
];

/// Words that stand before the expression of a `keep`.
pub const KEEP_KINDS: [Candidate; 2] = [
    Candidate {
        text: "hard",
        name: "`hard`",
    },
    Candidate {
        text: "default",
        name: "`default`",
    },
];

/// Operators on numbers.
pub const OPERATORS: [Candidate; 4] = [
    Candidate {
        text: "+",
        name: "`+`",
    },
    Candidate {
        text: "-",
        name: "`-`",
    },
    Candidate {
        text: "*",
        name: "`*`",
    },
    Candidate {
        text: "/",
        name: "`/`",
    },
];

/// Relations.
pub const RELATIONS: [Candidate; 7] = [
    Candidate {
        text: "==",
        name: "`==`",
    },
    Candidate {
        text: "!=",
        name: "`!=`",
    },
    Candidate {
        text: "<",
        name: "`<`",
    },
    Candidate {
        text: "<=",
        name: "`<=`",
    },
    Candidate {
        text: ">",
        name: "`>`",
    },
    Candidate {
        text: ">=",
        name: "`>=`",
    },
    Candidate {
        text: "in",
        name: "`in`",
    },
];

/// What goes on with an expression beside operators and relations.
pub const CONNECTIVES: [Candidate; 4] = [
    Candidate {
        text: ".",
        name: "`.`",
    },
    Candidate {
        text: "and",
        name: "`and`",
    },
    Candidate {
        text: "or",
        name: "`or`",
    },
    Candidate {
        text: "=>",
        name: "`=>`",
    },
];

/// All other marks and words.
pub const OTHERS: [Candidate; 28] = [
    Candidate {
        text: "=",
        name: "`=`",
    },
    Candidate {
        text: "..",
        name: "`..`",
    },
    Candidate {
        text: "!",
        name: "`!`",
    },
    Candidate {
        text: "not",
        name: "`not`",
    },
    Candidate {
        text: "hard",
        name: "`hard`",
    },
    Candidate {
        text: "default",
        name: "`default`",
    },
    Candidate {
        text: "with",
        name: "`with`",
    },
    Candidate {
        text: "keep",
        name: "`keep`",
    },
    Candidate {
        text: "remove_default",
        name: "`remove_default`",
    },
    Candidate {
        text: "do",
        name: "`do`",
    },
    Candidate {
        text: "serial",
        name: "`serial`",
    },
    Candidate {
        text: "parallel",
        name: "`parallel`",
    },
    Candidate {
        text: "one_of",
        name: "`one_of`",
    },
    Candidate {
        text: "wait",
        name: "`wait`",
    },
    Candidate {
        text: "elapsed",
        name: "`elapsed`",
    },
    Candidate {
        text: "actor",
        name: "`actor`",
    },
    Candidate {
        text: "list",
        name: "`list`",
    },
    Candidate {
        text: "is",
        name: "`is`",
    },
    Candidate {
        text: "of",
        name: "`of`",
    },
    Candidate {
        text: "inherits",
        name: "`inherits`",
    },
    Candidate {
        text: "import",
        name: "`import`",
    },
    Candidate {
        text: "type",
        name: "`type`",
    },
    Candidate {
        text: "unit",
        name: "`unit`",
    },
    Candidate {
        text: "enum",
        name: "`enum`",
    },
    Candidate {
        text: "struct",
        name: "`struct`",
    },
    Candidate {
        text: "action",
        name: "`action`",
    },
    Candidate {
        text: "scenario",
        name: "`scenario`",
    },
    Candidate {
        text: "extend",
        name: "`extend`",
    },
];
