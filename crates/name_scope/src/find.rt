ghost use Rattle.std.specs.Prelude.{◌≡◌, ◌≤◌, length, option_copied};
ghost use Rattle.name_scope.specs.Declaring.{found};

use crate::source::Source;
use crate::{DeclId, NameKind};

/// The first declaration of the name in the files.
pub fn find_in(
    sources: &[Source],
    kind: NameKind,
    owner: Option<&str>,
    name: &str,
) -> Option<DeclId>
    requires { length sources.now ≤ 64 }
    ensures { result ≡ found kind (option_copied owner.entry) name.now sources.now }
{
    let mut number: u32 = 0;
    for source in sources {
        if let Some(index) = source.place(kind, owner, name) {
            return Some(DeclId {
                file: number,
                index,
            });
        }
        number += 1;
    }
    None
}
