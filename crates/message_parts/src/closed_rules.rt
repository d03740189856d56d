use std::alloc::Global;

/// What stands in a record before the number of a rule that a part of it is closed by.
const CLOSE: &[u8] = b"close ";
/// More rules than any scenario has.
const MOST: usize = 262_145;

/// The rules that the lines `close RULE` of a record name, gathered while the record is written.
///
/// If memory runs out, rules lack.
#[derive(Debug, Drop)]
pub struct ClosedRules {
    rules: Vec<bool>,
    /// How many bytes of `CLOSE` the line begins with. `None` if it begins otherwise.
    begun: Option<usize>,
    number: usize,
}

impl ClosedRules {
    /// No rule is named yet.
    pub fn new(alloc: Global) -> ClosedRules {
        ClosedRules {
            rules: Vec::new(alloc),
            begun: Some(0),
            number: 0,
        }
    }

    /// Whether a line names the rule of this number, counted from 0.
    pub fn has(&self, rule: usize) -> bool {
        matches!(self.rules.get(rule), Some(true))
    }

    /// Takes further bytes of the record.
    pub fn take(&mut self, bytes: &[u8]) {
        for byte in bytes {
            self.take_byte(*byte);
        }
    }

    fn take_byte(&mut self, byte: u8) {
        if byte == b'\n' {
            self.end_line();
            return;
        }
        let Some(begun) = self.begun else {
            return;
        };
        match CLOSE.get(begun) {
            Some(wanted) if *wanted == byte => self.begun = Some(begun.saturating_add(1)),
            None if byte.is_ascii_digit() => {
                let digit = usize::from(byte.saturating_sub(b'0'));
                self.number = self.number.saturating_mul(10).saturating_add(digit);
            }
            _ => self.begun = None,
        }
    }

    fn end_line(&mut self) {
        if self.begun == Some(CLOSE.len()) {
            self.close(self.number);
        }
        self.begun = Some(0);
        self.number = 0;
    }

    fn close(&mut self, rule: usize) {
        if rule >= MOST {
            return;
        }
        for _rule in self.rules.len()..rule.saturating_add(1) {
            if self.rules.push(false).is_err() {
                return;
            }
        }
        if let Some(closed) = self.rules.get_mut(rule) {
            *closed = true;
        }
    }
}
