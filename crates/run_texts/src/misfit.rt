//! Where a JSON value isn't of a shape.

ghost use Rattle.std.specs.Prelude.{◌≡◌, ◌++◌, [], codes, IfOk};
ghost use Rattle.std.specs.Fmt.{decimal};
ghost use Rattle.run_texts.specs.RunReading.{IsTold};
ghost use Rattle.run_texts.specs.RunShape as shape;
ghost use Rattle.run_texts.specs.declared.misfit.Misfit.TheVariants as misfit;

use osc_base::Text;
use std::alloc::{AllocError, Global};

/// Why a JSON value is no part of a run.
#[derive(Debug, PartialEq, Eq, Drop)]
pub enum Misfit {
    /// The JSON pointer, from the value on, of the first place that differs.
    At(Text),
    /// Out of memory.
    Memory,
}

impl From<AllocError> for Misfit {
    ghost use Rattle.std.specs.Prelude.{◌≡◌};
    ghost use Rattle.run_texts.specs.declared.misfit.Misfit.TheVariants.{Memory};

    ghost from_gives = { λ _ e. e ≡ Memory };

    fn from(_error: AllocError) -> Misfit {
        Misfit::Memory
    }
}

/// The value itself differs.
pub fn here(alloc: Global) -> Misfit
    ensures { result ≡ misfit.At [] }
{
    Misfit::At(Text::of(String::new(alloc)))
}

/// What is told of an item, as it is told of its list.
pub fn in_item<T: Drop>(alloc: Global, place: usize, told: Result<T, Misfit>) -> Result<T, Misfit>
    ensures { (s : shape.Shaped T) → IsTold s told → IsTold (shape.inside (decimal place) s) result }
{
    match told {
        Err(Misfit::At(pointer)) => {
            let mut text = String::new(alloc);
            write!(text, "/{place}{pointer}", pointer = pointer.as_str())?;
            Err(Misfit::At(Text::of(text)))
        }
        other => other,
    }
}

/// What is told of what stands at a key, as it is told of the object.
pub fn in_key<T: Drop>(alloc: Global, key: &str, told: Result<T, Misfit>) -> Result<T, Misfit>
    ensures { (s : shape.Shaped T) → IsTold s told → IsTold (shape.inside key.now s) result }
{
    match told {
        Err(Misfit::At(pointer)) => Err(Misfit::At(after_key(alloc, key, pointer.as_str())?)),
        other => other,
    }
}

fn after_key(alloc: Global, key: &str, pointer: &str) -> Result<Text, AllocError>
    ensures { IfOk result (λ t. t ≡ codes "/" ++ key.now ++ pointer.now) }
{
    let mut text = String::new(alloc);
    write!(text, "/{key}{pointer}")?;
    Ok(Text::of(text))
}
