use crate::call::{Called, call, message_for};
use fault_texts::{Topic, fault_text, status_text, topic_named};
use osc_base::FaultCode;
use std::alloc::{AllocError, AllocGlobal, Global};
use std::process::Abort;
use std::test::Fail;

/// How many codes a source can have.
const CODES: usize = 28;

const GENERATE: [&str; 3] = ["generate", "main.osc", "top"];

/// All that there is to explain.
fn topics(alloc: Global) -> Result<Vec<Topic>, AllocError> {
    let mut topics = Vec::new(alloc);
    for number in 0..1000 {
        let word = format!(in alloc; "{number}")?;
        if let Some(topic) = topic_named(word.as_str()) {
            topics.push(topic)?;
        }
    }
    Ok(topics)
}

/// The codes of faults.
fn codes(alloc: Global) -> Result<Vec<FaultCode>, AllocError> {
    let mut codes = Vec::new(alloc);
    for topic in topics(alloc)?.as_slice() {
        if let Topic::Fault(code) = topic {
            codes.push(*code)?;
        }
    }
    Ok(codes)
}

/// The file `main.osc` of the example of a code, with what its text only hints at.
fn source_of(alloc: Global, code: FaultCode) -> Result<Vec<u8>, AllocError> {
    match code {
        FaultCode::Utf8 => Vec::from_slice(alloc, b"#\xff\n".as_slice()),
        FaultCode::TooManyFiles => {
            let mut source = String::new(alloc);
            for part in 1..65 {
                write!(source, "import \"part{part}.osc\"\n")?;
            }
            Vec::from_slice(alloc, source.as_bytes())
        }
        _ => Vec::from_slice(alloc, fault_text(code).example.as_bytes()),
    }
}

/// Sees that the example of a code gives exactly its fault.
fn example_is(rt: &(impl Abort + AllocGlobal), code: FaultCode) -> Result<(), Fail> {
    let source = source_of(rt.alloc(), code)?;
    let called = call(rt.alloc(), &GENERATE, &[("main.osc", source.as_slice())])?;
    assert_eq!(rt; called.status, 3);
    let want = format!(in rt.alloc(); "{}\n", fault_text(code).answer)?;
    assert!(rt;
        called.written.as_str() == want.as_str(),
        "{}",
        code.number()
    );
    Ok(())
}

#[test]
fn each_example_gives_its_fault(rt: HostRuntime) -> Result<(), Fail> {
    let codes = codes(rt.alloc())?;
    assert_eq!(rt; codes.len(), CODES);
    for code in codes.as_slice() {
        example_is(&rt, *code)?;
    }
    Ok(())
}

/// Sees that a message has a part of each kind.
fn has_kinds(rt: &impl Abort, message: &str) {
    for part in [" --> main.osc:", " | ", "^", "  = help: "] {
        assert!(rt; message.contains(part), "{message}: {part}");
    }
}

/// Sees that the example of a code has its message.
fn message_is(rt: &(impl Abort + AllocGlobal), code: FaultCode) -> Result<(), Fail> {
    let source = source_of(rt.alloc(), code)?;
    let said = fault_text(code);
    let message = message_for(rt.alloc(), said.answer, &[("main.osc", source.as_slice())])?;
    let number = code.number();
    let title = said.title;
    let head = format!(in rt.alloc(); "error[{number}]: {title}\n")?;
    let explain = format!(in rt.alloc(); "= help: `osc explain {number}` tells more\n")?;
    assert!(rt; message.as_str().starts_with(head.as_str()), "{number}");
    assert!(rt; message.as_str().ends_with(explain.as_str()), "{number}");
    has_kinds(rt, message.as_str());
    Ok(())
}

#[test]
fn each_example_has_its_message(rt: HostRuntime) -> Result<(), Fail> {
    for code in codes(rt.alloc())?.as_slice() {
        message_is(&rt, *code)?;
    }
    Ok(())
}

/// Whether what is written has all parts of a text.
fn has_all(called: &Called, parts: &[&str]) -> bool {
    let written = called.written.as_str();
    for part in parts {
        if !written.contains(*part) {
            return false;
        }
    }
    called.status == 0 && called.message.as_str().is_empty()
}

/// Sees that a topic is explained, and stands in the list of all.
fn is_explained(rt: &(impl Abort + AllocGlobal), topic: &Topic, list: &Called) -> Result<(), Fail> {
    let (number, said) = match topic {
        Topic::Fault(code) => (code.number(), fault_text(*code)),
        Topic::Status(status) => (u16::from(status.number()), status_text(*status)),
    };
    let word = format!(in rt.alloc(); "{number}")?;
    let called = call(rt.alloc(), &["explain", word.as_str()], &[])?;
    let parts = [
        said.title,
        said.meaning,
        said.example,
        said.answer,
        said.mending,
    ];
    assert!(rt; has_all(&called, &parts), "{number}");
    assert!(rt; has_all(list, &[word.as_str(), said.title]), "{number}");
    Ok(())
}

#[test]
fn each_topic_is_explained(rt: HostRuntime) -> Result<(), Fail> {
    let list = call(rt.alloc(), &["explain"], &[])?;
    for topic in topics(rt.alloc())?.as_slice() {
        is_explained(&rt, topic, &list)?;
    }
    Ok(())
}
