ghost use Rattle.std.specs.Prelude.{◌≡◌, ◌+◌, ◌^◌, ◌<◌};

use osc_base::Place;

/// Where a byte of the file stands: its offset, line and column.
#[derive(Clone, Copy)]
pub struct Spot {
    pub at: usize,
    pub line: u32,
    pub column: u32,
}

impl Spot {
    /// The first byte.
    pub fn start() -> Spot
        ensures { result ≡ record { at = 0; line = 1; column = 1 } }
    {
        Spot {
            at: 0,
            line: 1,
            column: 1,
        }
    }

    /// The spot after `len` bytes, none of them a line feed.
    pub fn past(self, len: usize) -> Spot
        requires at { self.at + len < 2 ^ 32 }
        requires column { self.column + len < 2 ^ 32 }
        ensures { result ≡ record self { at = self.at + len; column = self.column + len } }
    {
        Spot {
            at: self.at + len,
            line: self.line,
            column: self.column + len as u32,
        }
    }

    /// The spot after `len` bytes, the last of them, and no other, a line feed.
    pub fn past_line_feed(self, len: usize) -> Spot
        requires at { self.at + len < 2 ^ 32 }
        requires line { self.line + 1 < 2 ^ 32 }
        ensures { result ≡ record { at = self.at + len; line = self.line + 1; column = 1 } }
    {
        Spot {
            at: self.at + len,
            line: self.line + 1,
            column: 1,
        }
    }

    /// The place of the spot, when `tokens` tokens stand before it.
    pub fn place(self, file: u32, tokens: usize) -> Place
        requires { tokens < 2 ^ 32 }
        ensures { result ≡ record { file = file; line = self.line; column = self.column; token = tokens } }
    {
        Place {
            file,
            line: self.line,
            column: self.column,
            token: tokens as u32,
        }
    }
}
