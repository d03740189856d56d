use dsl_lexer::{LexStop, laws, lex};
use dsl_tree::{Token, TokenKind};
use std::io;

/// A letter for the kind, and the text or the number.
fn show(out: &mut String, rt: &HostRuntime, token: &Token) -> io::Result<()> {
    let alloc = rt.alloc();
    let text = match &token.kind {
        TokenKind::Newline => format!(in alloc; "newline")?,
        TokenKind::Indent => format!(in alloc; "indent")?,
        TokenKind::Dedent => format!(in alloc; "dedent")?,
        TokenKind::End => format!(in alloc; "end")?,
        TokenKind::Mark(_) => format!(in alloc; "mark")?,
        TokenKind::Word(_) => format!(in alloc; "word")?,
        TokenKind::LeftOut(_) => format!(in alloc; "left")?,
        TokenKind::Name(name) => format!(in alloc; "name {}", name.as_str())?,
        TokenKind::Number { digits, places } => format!(in alloc; "number {digits} {places}")?,
        TokenKind::Physical {
            digits,
            places,
            unit,
        } => format!(in alloc; "physical {digits} {places} {}", unit.as_str())?,
        TokenKind::Chars(chars) => format!(in alloc; "chars {}", chars.as_str())?,
    };
    let place = token.place;
    let line = format!(in alloc;
        "{}:{}:{}:{} {text}\n",
        place.file, place.line, place.column, place.token
    )?;
    out.push_str(line.as_str())?;
    Ok(())
}

/// The tokens, a line each, or the fault.
fn shown(rt: &HostRuntime, source: &[u8]) -> io::Result<String> {
    let alloc = rt.alloc();
    let mut out = String::new(alloc);
    if source.len() > 1_048_576 {
        return Ok(out);
    }
    match lex(alloc, 3, source) {
        Ok(tokens) => {
            for token in tokens.as_slice() {
                show(&mut out, rt, token)?;
            }
        }
        Err(LexStop::Memory) => out.push_str("memory")?,
        Err(LexStop::At(fault)) => {
            let place = fault.place;
            let line = format!(in alloc;
                "fault {} {}:{}:{}",
                fault.code.number(),
                place.file,
                place.line,
                place.column
            )?;
            out.push_str(line.as_str())?;
        }
    }
    Ok(out)
}

#[test]
fn sources(rt: HostRuntime) -> io::Result<()> {
    laws();
    let table = [
        ("", "3:1:1:0 end\n"),
        (
            "x: int\n  1.50 7 0x1F # no\r\n'\\''",
            "3:1:1:0 name x\n3:1:2:1 mark\n3:1:4:2 name int\n3:1:7:3 newline\n3:2:3:4 indent\n3:2:3:5 number 150 2\n3:2:8:6 number 7 0\n3:2:10:7 number 31 0\n3:2:14:8 newline\n3:3:1:9 dedent\n3:3:1:10 chars '\n3:3:5:11 newline\n3:3:5:12 end\n",
        ),
        (
            "scenario top: # ü\n    cover(30.5kph,\n'ü')",
            "3:1:1:0 word\n3:1:10:1 name top\n3:1:13:2 mark\n3:1:14:3 newline\n3:2:5:4 indent\n3:2:5:5 left\n3:2:10:6 mark\n3:2:11:7 physical 305 1 kph\n3:2:18:8 mark\n3:3:1:9 chars ü\n3:3:5:10 mark\n3:3:6:11 newline\n3:3:6:12 dedent\n3:3:6:13 end\n",
        ),
        ("scenario top:\n\tx: int\n", "fault 102 3:2:1"),
        (
            "scenario top:\n        x: int\n    y: int\n",
            "fault 103 3:3:5",
        ),
        (
            "scenario top:\n    x: int\n    keep(x % 3)\n",
            "fault 104 3:3:12",
        ),
        ("import \"a\\n\"\n", "fault 105 3:1:8"),
        ("keep(3modifier)", "fault 106 3:1:6"),
        (
            "a:\n    b\n    keep((((((((((((((((((((((((((((((((((((((((((((((((((((((((((((((((",
            "fault 107 3:3:72",
        ),
    ];
    for (source, want) in table {
        let got = shown(&rt, source.as_bytes())?;
        assert_eq!(rt; got.as_str(), want, "at {source}");
    }
    let got = shown(&rt, &[0x23, 0xFF])?;
    assert_eq!(rt; got.as_str(), "fault 101 3:1:2");
    Ok(())
}
