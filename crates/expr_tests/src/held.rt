ghost use Rattle.std.specs.Prelude.{◌≡◌, cond, pos, Some, None, nat_eq, length};

use expr_nodes::{Info, Size, Typed, ValueKind};
use expr_value::{Reading, is_held};
use osc_base::{Boxed, Path, Place, Row, Step, Text};
use std::alloc::{AllocError, Global};
use std::test::Fail;

/// Each path of one step holds 3, and no other path holds a number.
struct OneStep;

impl Reading for OneStep {
    ghost told = { λ s p. cond (nat_eq (length p.steps) 1) (Some (pos 3)) None };

    fn held(&self, path: &Path) -> Option<i64> {
        if path.steps.as_slice().len() == 1 {
            Some(3)
        } else {
            None
        }
    }
}

/// What is read at a path of that many steps.
fn read(alloc: Global, steps: usize) -> Result<Typed, AllocError> {
    let mut path = Row::new(alloc);
    for _ in 0..steps {
        path.push(Step::Name(Text::copy(alloc, "x")?))?;
    }
    let place = Place {
        file: 0,
        line: 1,
        column: 1,
        token: 0,
    };
    Ok(Typed::Read {
        info: Info {
            place,
            kind: ValueKind::Truth,
            size: Size::field(1),
        },
        path: Path { steps: path },
        per: 1,
    })
}

/// `=>` of two parts.
fn implied(alloc: Global, left: Typed, right: Typed) -> Result<Typed, AllocError> {
    let info = left.info();
    Ok(Typed::Implies {
        info,
        left: Boxed::new(alloc, left)?,
        right: Boxed::new(alloc, right)?,
    })
}

#[test]
fn an_expression_is_held_if_each_path_is(rt: HostRuntime) -> Result<(), Fail> {
    let alloc = rt.alloc();
    for (left, right, want) in [(1, 1, true), (1, 2, false), (2, 1, false), (0, 1, false)] {
        let typed = implied(alloc, read(alloc, left)?, read(alloc, right)?)?;
        assert_eq!(rt; is_held(&typed, &OneStep), want);
    }
    Ok(())
}
