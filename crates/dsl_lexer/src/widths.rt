ghost use Rattle.std.specs.Prelude.{◌≡◌, ◌+◌, ◌≤◌, ◌<◌, ◌^◌, ◌&&◌, ◌==◌, [], nat_lt, length, filter, OnOk};
ghost use Rattle.std.specs.List.{list_all, list_any};
ghost use Rattle.dsl_lexer.specs.Steps.{opened_behind};
ghost use Rattle.dsl_lexer.specs.Layout as layout;

use std::alloc::{AllocError, Global};
use std::marker::Model;

/// The opened widths above 0, the greatest first.
#[derive(Drop)]
pub struct Widths {
    widths: Vec<u32>,
}

impl Model for Widths {
    ghost use Rattle.std.specs.Prelude.{List, ℕ};

    ghost Value = { List ℕ };

    ghost view = { λ w. w.widths.items };
}

impl Widths {
    /// No width is opened.
    pub fn new(alloc: Global) -> Widths
        ensures { result ≡ [] }
    {
        Widths {
            widths: Vec::new(alloc),
        }
    }

    pub fn len(&self) -> usize
        ensures { result ≡ length self.now }
    {
        self.widths.len()
    }

    /// Whether a width is above 0 and wider than all.
    pub fn is_widest(&self, width: u32) -> bool
        ensures { result ≡ layout.is_widest width self.now }
    {
        0 < width && self.all_below(width)
    }

    fn all_below(&self, width: u32) -> bool
        ensures { result ≡ list_all (λ v. nat_lt v width) self.now }
    {
        self.widths.iter().all(|v| *v < width)
    }

    /// Whether a line may have this width.
    pub fn fits(&self, width: u32) -> bool
        ensures { result ≡ layout.fits width self.now }
    {
        self.is_widest(width) || width == 0 || self.contains(width)
    }

    fn contains(&self, width: u32) -> bool
        ensures { result ≡ list_any (λ v. v == width) self.now }
    {
        self.widths.iter().any(|v| *v == width)
    }

    /// How many are wider.
    pub fn count_wider(&self, width: u32) -> usize
        ensures count { result ≡ length (filter (λ v. nat_lt width v) self.now) }
        ensures within { result ≤ length self.now }
    {
        self.widths.iter().filter(|v| width < **v).count()
    }

    fn count_narrower(&self, width: u32) -> usize
        ensures count { result ≡ length (filter (λ v. nat_lt v width) self.now) }
        ensures within { result ≤ length self.now }
    {
        self.widths.iter().filter(|v| **v < width).count()
    }

    /// How many there are once a line of this width has begun.
    pub fn len_behind(&self, width: u32) -> usize
        requires { length self.now < 2 ^ 32 }
        ensures len { result ≡ length (opened_behind width self.now) }
        ensures within { result ≤ length self.now + 1 }
    {
        let narrower = self.count_narrower(width);
        if width == 0 { narrower } else { narrower + 1 }
    }

    fn keep_narrower(&mut self, width: u32)
        ensures { self.new ≡ filter (λ v. nat_lt v width) self.old }
    {
        self.widths.retain(|v| *v < width);
    }

    /// A line of this width begins.
    pub fn begin(&mut self, width: u32) -> Result<(), AllocError>
        ensures { OnOk result (self.new ≡ opened_behind width self.old) }
    {
        self.keep_narrower(width);
        if width > 0 {
            self.widths.insert(0, width)?;
        }
        Ok(())
    }
}
