//! The texts of the program.

ghost use Rattle.std.specs.Prelude.{◌≡◌, IfOk};
ghost use Rattle.object_works.specs.program_texts.SeenTexts.{types_in};

use object_works::{ProgramTexts, TextTable};
use osc_base::Text;
use std::alloc::{AllocError, Global};

/// Equal texts.
fn copies(alloc: Global, texts: &[Text]) -> Result<Vec<Text>, AllocError>
    ensures { IfOk result (λ ts. ts.items ≡ texts.now) }
{
    let mut copies = Vec::new(alloc);
    for text in texts {
        copies.push(Text::copy(alloc, text.as_str())?)?;
    }
    Ok(copies)
}

/// The texts that a field of type `string` may hold, each once, in byte order.
pub fn texts(alloc: Global, texts: &ProgramTexts<'_>) -> Result<TextTable, AllocError>
    ensures { IfOk result (λ ts. ts ≡ (types_in texts.now).table.texts) }
{
    let all = copies(alloc, texts.types().texts())?;
    let table = TextTable::of(alloc, all)?;
    Ok(table)
}
