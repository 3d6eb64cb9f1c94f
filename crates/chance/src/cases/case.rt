// A case: a rule, a signal list and a log.
use std::fmt;

// Pieces of a log, at most: each is a record's bytes, but for a short last one.
pub(crate) const PIECES: usize = 12;

#[derive(Clone, Copy)]
pub(crate) struct Case<'a> {
    pub(crate) rule: &'a [u8],
    pub(crate) signals: &'a [u8],
    pub(crate) log: &'a [u8],
}

// Bytes in hexadecimal, two digits each.
#[derive(Clone, Copy)]
struct Hexadecimal<'a>(&'a [u8]);

impl fmt::Display for Hexadecimal<'_> {
    fn fmt<W: fmt::Write>(&self, f: &mut fmt::Formatter<W>) -> fmt::Result {
        for byte in self.0 {
            write!(f, "{byte:02x}")?;
        }
        Ok(())
    }
}

impl fmt::Display for Case<'_> {
    fn fmt<W: fmt::Write>(&self, f: &mut fmt::Formatter<W>) -> fmt::Result {
        let rule = Hexadecimal(self.rule);
        let signals = Hexadecimal(self.signals);
        let log = Hexadecimal(self.log);
        write!(f, "rule {rule} signals {signals} log {log}")
    }
}
