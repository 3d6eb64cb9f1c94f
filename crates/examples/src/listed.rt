// The fourteen examples of document 01.
use crate::answers::run;
use crate::given::{
    Channel, NOTHING, Record, Sense, Unit, rule_a, rule_b, rule_nothing, rule_signal,
    signal_record, step, vent_signals,
};
use crate::told::{right, tell};
use std::io;

// Runs of logs: where they tell, and the watcher's area.
#[derive(Drop)]
pub(crate) struct Runs<'a, P> {
    pub(crate) rt: &'a P,
    pub(crate) area: &'a mut [u64],
}

impl<P: Print> Runs<'_, P> {
    // Whether the watcher says what is wanted of a log.
    fn says(
        &mut self,
        rule: &[u8],
        signals: &[u8],
        log: &[Record],
        wanted: &str,
    ) -> io::Result<bool> {
        let said = run(rule, signals, log, self.area);
        right(self.rt, said.as_str(), wanted)
    }

    // Whether it does of a log of the two vents.
    fn vents(&mut self, rule: &[u8], log: &[Record], wanted: &str) -> io::Result<bool> {
        self.says(rule, &vent_signals(), log, wanted)
    }

    // Tells an example that is one log of the two vents.
    fn example(&mut self, name: &str, rule: &[u8], log: &[Record], wanted: &str) -> io::Result<()> {
        let ok = self.vents(rule, log, wanted)?;
        tell(self.rt, name, ok)
    }

    // Whether it does of the rule that is a signal, over one record.
    pub(crate) fn signal(
        &mut self,
        signal_list: &[u8],
        record: Record,
        wanted: &str,
    ) -> io::Result<bool> {
        self.says(&rule_signal(0), signal_list, &[record], wanted)
    }

    // Whether it does of one record of wind against limit 120.
    fn wind(&mut self, wind: u16, unit: Unit, wanted: &str) -> io::Result<bool> {
        let list = signal_record(Channel::Wind, Sense::AtLeast, 120);
        let record = Record {
            wind,
            unit,
            ..NOTHING
        };
        self.signal(&list, record, wanted)
    }

    // Examples 1 to 6, of rule A.
    fn until_examples(&mut self) -> io::Result<()> {
        let rule = rule_a(0, 2);
        let met = [step(0, 1, 0), step(1, 1, 0), step(2, 0, 1)];
        self.example("1", &rule, &met, "PPP.K bnnya")?;
        self.example("2", &rule, &[step(0, 1, 0), step(3, 0, 1)], "PB.B bnna")?;
        self.example("3", &rule, &[step(0, 1, 0), step(2, 0, 1)], "PP.K bnya")?;
        self.example("4", &rule, &[step(0, 1, 0)], "P.B bna")?;
        self.example("5", &rule, &[step(5, 1, 0), step(5, 0, 1)], "PP.K bnya")?;
        self.example("6", &rule, &[step(0, 0, 0), step(0, 0, 0)], "PB.B bnna")
    }

    // Examples 7 and 8, of rule B, and 9.
    fn since_examples(&mut self) -> io::Result<()> {
        let rule = rule_b();
        self.example("7", &rule, &[step(0, 0, 1), step(1, 1, 0)], "PP.K bnya")?;
        self.example("8", &rule, &[step(0, 0, 1), step(2, 1, 0)], "PP.B bnna")?;
        self.example("9", &rule_nothing(), &[step(0, 0, 0)], "B.B bna")
    }

    // Examples 10 and 11.
    fn wind_examples(&mut self) -> io::Result<()> {
        let met = self.wind(432, Unit::Kmh, "P.K bya")?;
        let less = self.wind(431, Unit::Kmh, "P.B bna")?;
        let third = self.wind(144, Unit::Kmh, "P.B bna")?;
        tell(self.rt, "10", met && less && third)?;
        let equal = self.wind(120, Unit::Ms, "P.K bya")?;
        let below = self.wind(119, Unit::Ms, "P.B bna")?;
        tell(self.rt, "11", equal && below)
    }

    // Examples 12 to 14.
    fn last_examples(&mut self) -> io::Result<()> {
        let log = [step(0, 1, 0), step(9, 0, 1)];
        let taken = self.vents(&rule_a(0, 9), &log, "PP.K bnya")?;
        let refused = self.vents(&rule_a(0, 10), &log, "4")?;
        tell(self.rt, "12", taken && refused)?;
        self.example("13", &rule_a(9, 255), &log, "PP.K bnya")?;
        let back = [step(3, 1, 0), step(2, 0, 1), step(3, 0, 1)];
        self.example("14", &rule_a(0, 2), &back, "P9P.K bnnya")
    }

    // The fourteen examples, in order.
    pub(crate) fn examples(&mut self) -> io::Result<()> {
        self.until_examples()?;
        self.since_examples()?;
        self.wind_examples()?;
        self.last_examples()
    }
}
