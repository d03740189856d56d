//! What the words ask for, in words for people.

use crate::decimals::put_seconds;
use command_words::{Request, Setting, Source, read_words};
use std::alloc::{AllocError, Global};

/// What a call asks for, as far as messages tell of it.
#[derive(Debug, Clone, Copy)]
pub struct Asked<'a> {
    pub command: Command,
    pub source: Source<'a>,
    pub setting: Setting,
    /// Of `generate` the most cuts.
    pub cuts: u32,
    /// Of `generate` the most searches.
    pub tries: u32,
    /// Of `check`, `export` and `verify` the file of the run or the record.
    pub file: &'a str,
}

/// The commands whose answers have messages.
#[derive(Debug, Clone, Copy, PartialEq, Eq)]
pub enum Command {
    Generate,
    Check,
    Export,
    Verify,
}

/// What the words ask for. `None` for other commands.
pub fn asked_in(alloc: Global, words: &[String]) -> Result<Option<Asked<'_>>, AllocError> {
    let asked = match read_words(alloc, words)? {
        Request::Generate(asked) => Asked {
            command: Command::Generate,
            source: asked.source,
            setting: asked.setting,
            cuts: asked.cuts,
            tries: asked.tries,
            file: "",
        },
        Request::Check(asked) => Asked {
            command: Command::Check,
            source: asked.source,
            setting: asked.setting,
            cuts: 0,
            tries: 0,
            file: asked.run,
        },
        Request::Export(asked) => Asked {
            command: Command::Export,
            source: asked.source,
            setting: asked.setting,
            cuts: 0,
            tries: 0,
            file: asked.run,
        },
        Request::Verify(asked) => Asked {
            command: Command::Verify,
            source: asked.source,
            setting: asked.setting,
            cuts: 0,
            tries: 0,
            file: asked.record,
        },
        _ => return Ok(None),
    };
    Ok(Some(asked))
}

/// Puts the setting in force, with the options that make it.
pub fn put_setting(text: &mut String, setting: Setting) -> Result<(), AllocError> {
    let (ticks, lanes, road, tick) = (setting.ticks, setting.lanes, setting.road, setting.tick);
    put_seconds(text, i64::from(ticks), i64::from(tick))?;
    write!(text, " (`--ticks {ticks} --tick {tick}`), ")?;
    if lanes == 1 {
        text.push_str("one lane")?;
    } else {
        write!(text, "lanes 1 to {lanes}")?;
    }
    write!(
        text,
        " (`--lanes {lanes}`) and {road} m of road (`--road {road}`)"
    )
}

/// Puts the words of a call.
pub fn put_call(text: &mut String, words: &[String]) -> Result<(), AllocError> {
    text.push_str("osc")?;
    for word in words {
        text.push_str(" ")?;
        text.push_str(word.as_str())?;
    }
    Ok(())
}
