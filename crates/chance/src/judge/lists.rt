// Lists: which of the refusals 1 to 6 a rule and a signal list get, from document 01's words.
use crate::judge::log::Record;
use crate::judge::refusal::Refusal;
use crate::judge::rule::Formula;
use crate::judge::signal::Signal;

// Records of a list, at most.
pub(crate) const LIST_RECORDS: usize = 16;

// Parameters of a rule, at most.
const PARAMETERS: u32 = 12;

// The records of a rule and of a signal list that are not refused.
#[derive(Clone, Copy)]
pub(crate) struct Lists<'a> {
    rule: &'a [[u8; 8]],
    signals: &'a [[u8; 8]],
}

// The records of a list; none where it does not have 1 to 16 of them and nothing behind.
fn records(list: &[u8]) -> Option<&[[u8; 8]]> {
    let (records, rest) = list.as_chunks::<8>();
    if records.is_empty() || LIST_RECORDS < records.len() || !rest.is_empty() {
        return None;
    }
    Some(records)
}

// Whether some two records have the same eight bytes.
fn has_twins(rule: &[[u8; 8]]) -> bool {
    rule.iter().enumerate().any(|(k, record)| rule.iter().take(k).any(|earlier| earlier == record))
}

// Rule record k; none past the rule's end, and where it breaks the layout.
fn formula(rule: &[[u8; 8]], k: usize) -> Option<Formula> {
    Formula::read(rule.get(k)?, u8::try_from(k).ok()?)
}

// How many parameters the rule has.
fn parameters(rule: &[[u8; 8]]) -> u32 {
    (0..rule.len()).filter_map(|k| formula(rule, k)).fold(
        0u32,
        |sum, formula| sum.saturating_add(formula.parameters()),
    )
}

// The first refusal that the rule gets by itself.
fn check_rule(rule: &[[u8; 8]]) -> Result<(), Refusal> {
    if (0..rule.len()).any(|k| formula(rule, k).is_none()) {
        return Err(Refusal::RuleRecord);
    }
    if has_twins(rule) {
        return Err(Refusal::RuleTwins);
    }
    if PARAMETERS < parameters(rule) {
        return Err(Refusal::RuleParameters);
    }
    Ok(())
}

impl<'a> Lists<'a> {
    // The lists of these bytes, or the first refusal that they get.
    pub(crate) fn read(rule: &'a [u8], signals: &'a [u8]) -> Result<Lists<'a>, Refusal> {
        let rule = records(rule).ok_or(Refusal::RuleLength)?;
        check_rule(rule)?;
        let signals = records(signals).ok_or(Refusal::SignalList)?;
        if signals.iter().any(|record| Signal::read(record).is_none()) {
            return Err(Refusal::SignalList);
        }
        let names_missing = |formula: Formula| formula.names_missing(signals.len());
        if (0..rule.len()).any(|k| formula(rule, k).is_some_and(names_missing)) {
            return Err(Refusal::SignalMissing);
        }
        Ok(Lists { rule, signals })
    }

    // Rule record k; none past the rule's end.
    pub(crate) fn formula(&self, k: usize) -> Option<Formula> {
        formula(self.rule, k)
    }

    // Whether signal n holds in a record, none where it has no reading; what the list does not define does not hold.
    pub(crate) fn test(&self, n: usize, record: &Record) -> Option<bool> {
        match self.signals.get(n).and_then(|bytes| Signal::read(bytes)) {
            Some(signal) => signal.test(record),
            None => Some(false),
        }
    }

    // Whether the list defines signal n.
    pub(crate) fn defines(&self, n: usize) -> bool {
        n < self.signals.len()
    }
}
