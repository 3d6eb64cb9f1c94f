// What documents 01 and 02 say of readings: tests of a signal at the ends of 16 bits, and runs where the air has none.
use crate::answers::{Letters, push};
use crate::given::{Channel, NOTHING, Record, Sense, Unit, signal_record};
use crate::listed::Runs;
use crate::told::{right, tell};
use std::io;
use watcher::readings::{Tested, test_signal};

// The air that is no reading, and the wind.
const NO_AIR: i16 = 32767;

const NO_WIND: u16 = 65535;

// A record with a temperature and a wind, the lee vent wide open, the windward one shut, and rain.
fn weather(air: i16, wind: u16, unit: Unit) -> Record {
    Record {
        air,
        wind,
        unit,
        lee: 100,
        rain: true,
        ..NOTHING
    }
}

// The mark of a test of signal n of a list of one signal: + where it holds, - where it does not, ? with no reading.
fn mark(record: &Record, list: &[u8], n: usize) -> char {
    match test_signal(list, 1, &record.bytes(), n) {
        Tested::Holds => '+',
        Tested::DoesNotHold => '-',
        Tested::NoReading => '?',
    }
}

// The marks of a channel against limits 32767, 0 and -32768: for each limit "at least", then "below".
fn row(
    rt: &impl Print,
    name: &str,
    record: &Record,
    channel: Channel,
    wanted: &str,
) -> io::Result<()> {
    let mut said = Letters::new();
    for limit in [32767, 0, -32768] {
        if limit != 32767 {
            push(&mut said, ' ');
        }
        for sense in [Sense::AtLeast, Sense::Below] {
            push(
                &mut said,
                mark(record, &signal_record(channel, sense, limit), 0),
            );
        }
    }
    tell(rt, name, right(rt, said.as_str(), wanted)?)
}

// A row of air; the wind beside it has no reading.
fn air(rt: &impl Print, name: &str, number: i16, wanted: &str) -> io::Result<()> {
    let record = weather(number, NO_WIND, Unit::Ms);
    row(rt, name, &record, Channel::Air, wanted)
}

// A row of wind in a unit; the air beside it has no reading.
fn wind(rt: &impl Print, name: &str, number: u16, unit: Unit, wanted: &str) -> io::Result<()> {
    let record = weather(NO_AIR, number, unit);
    row(rt, name, &record, Channel::Wind, wanted)
}

// Air: 32767 is no reading, and -32768 the lowest limit itself.
fn air_rows(rt: &impl Print) -> io::Result<()> {
    air(rt, "air 32766", 32766, "-+ +- +-")?;
    air(rt, "air 32767", NO_AIR, "?? ?? ??")?;
    air(rt, "air -1", -1, "-+ -+ +-")?;
    air(rt, "air -32768", -32768, "-+ -+ +-")
}

// Wind: 65535 is no reading. In m/s 32767 and 65534 meet every limit; in km/h neither meets 32767, since five times
// each, 163835 and 327670, is below 18 times that, 589806.
fn wind_rows(rt: &impl Print) -> io::Result<()> {
    wind(rt, "m/s 32766", 32766, Unit::Ms, "-+ +- +-")?;
    wind(rt, "m/s 32767", 32767, Unit::Ms, "+- +- +-")?;
    wind(rt, "m/s 65534", 65534, Unit::Ms, "+- +- +-")?;
    wind(rt, "m/s 65535", NO_WIND, Unit::Ms, "?? ?? ??")?;
    wind(rt, "km/h 32767", 32767, Unit::Kmh, "-+ +- +-")?;
    wind(rt, "km/h 65534", 65534, Unit::Kmh, "-+ +- +-")?;
    wind(rt, "km/h 65535", NO_WIND, Unit::Kmh, "?? ?? ??")
}

// Vents and rain read where neither air nor wind does; a signal past the list does not hold even there.
fn other_rows(rt: &impl Print) -> io::Result<()> {
    let record = weather(NO_AIR, NO_WIND, Unit::Kmh);
    row(rt, "lee 100", &record, Channel::Lee, "-+ +- +-")?;
    row(rt, "windward 0", &record, Channel::Windward, "-+ +- +-")?;
    row(rt, "rain 1", &record, Channel::Rain, "-+ +- +-")?;
    let air = mark(&record, &signal_record(Channel::Air, Sense::AtLeast, 0), 1);
    let wind = mark(&record, &signal_record(Channel::Wind, Sense::Below, 0), 1);
    tell(rt, "past the list", air == '-' && wind == '-')
}

// The rows of tests.
pub(crate) fn rows(rt: &impl Print) -> io::Result<()> {
    air_rows(rt)?;
    wind_rows(rt)?;
    other_rows(rt)
}

impl<P: Print> Runs<'_, P> {
    // Whether the watcher says what is wanted of one record, by the rule of the air at least or below 300.
    fn air(&mut self, sense: Sense, number: i16, wanted: &str) -> io::Result<bool> {
        let list = signal_record(Channel::Air, sense, 300);
        self.signal(&list, weather(number, 0, Unit::Kmh), wanted)
    }

    // A record with no reading of the air is accepted, and the air is neither at least 300 nor below it.
    pub(crate) fn readings(&mut self) -> io::Result<()> {
        let met = self.air(Sense::AtLeast, 300, "P.K bya")?;
        let less = self.air(Sense::AtLeast, 299, "P.B bna")?;
        let none = self.air(Sense::AtLeast, NO_AIR, "P.B bna")?;
        tell(self.rt, "air at least 300", met && less && none)?;
        let below = self.air(Sense::Below, 299, "P.K bya")?;
        let equal = self.air(Sense::Below, 300, "P.B bna")?;
        let silent = self.air(Sense::Below, NO_AIR, "P.B bna")?;
        tell(self.rt, "air below 300", below && equal && silent)
    }
}
