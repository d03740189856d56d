ghost use Rattle.std.specs.Prelude.{◌≡◌, ◌<◌, List};
ghost use Rattle.linear_sums.specs.declared.pick.Pick.{Pick};
ghost use Rattle.record_text.specs.Nodes.{no_nodes, lacks_leaf, wanted_after, counted};
ghost use Rattle.record_text.specs.WholeLines.{whole_line};

use crate::found::is_two;
use crate::{Form, ReadLine, Wanted};

/// How far the cuts and leaves of a record were read.
#[derive(Clone, Copy)]
pub struct Nodes {
    pub undecided: bool,
    pub form: Form,
    /// The number of trees that are still to come.
    pub left: u32,
    /// Whether some leaf was open.
    pub some_open: bool,
    /// Whether some leaf was a sum.
    pub some_sum: bool,
    /// The number of cuts.
    pub cuts: u32,
}

impl Nodes {
    /// None was read yet.
    pub fn new(undecided: bool, form: Form) -> Nodes
        ensures { result ≡ no_nodes undecided form }
    {
        Nodes {
            undecided,
            form,
            left: 1,
            some_open: false,
            some_sum: false,
            cuts: 0,
        }
    }

    /// What is to come next: a cut or a leaf, and after the last leaf the end. An undecided record without an open leaf
    /// has no end, and one of form 2 without a sum has none either.
    pub fn wanted(&self) -> Wanted
        ensures { result ≡ wanted_after self.now }
    {
        if self.left > 0 {
            Wanted::Node {
                undecided: self.undecided,
                form: self.form,
            }
        } else if self.lacks_leaf() {
            Wanted::Nothing
        } else {
            Wanted::End
        }
    }

    /// Whether a leaf is missing that the heading asks for.
    fn lacks_leaf(&self) -> bool
        ensures { result ≡ lacks_leaf self.now }
    {
        (self.undecided && !self.some_open) || (is_two(self.form) && !self.some_sum)
    }

    /// Counts a cut or a leaf.
    pub fn count(&mut self, line: ReadLine)
        requires some { 0 < self.old.left }
        requires few { self.old.left < 1000000000 }
        requires few_cuts { self.old.cuts < 1000000000 }
        ensures { (picks : List Pick) → self.new ≡ counted self.old (whole_line picks line) }
    {
        match line {
            ReadLine::Cut { .. } => {
                self.left += 1;
                self.cuts += 1;
            }
            ReadLine::Close { .. } => self.left -= 1,
            ReadLine::Sum => {
                self.left -= 1;
                self.some_sum = true;
            }
            ReadLine::Open => {
                self.left -= 1;
                self.some_open = true;
            }
            _ => {}
        }
    }
}
