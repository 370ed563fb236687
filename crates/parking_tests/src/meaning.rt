//! What the calls that are drawn mean on the three records that they read and write.

use crate::calls::Drawn;

/// A number of eight bytes with its version; both are 0 where the record is absent.
#[derive(Clone, Copy, Debug)]
pub struct Record {
    pub version: u64,
    pub number: u64,
}

const ABSENT: Record = Record {
    version: 0,
    number: 0,
};

/// The records `a`, `b` and `c` of table 6.
#[derive(Clone, Copy, Debug)]
pub struct Three {
    a: Record,
    b: Record,
    c: Record,
}

/// How a run ends.
#[derive(Clone, Copy, Debug, PartialEq, Eq)]
pub enum Ends {
    Done(u64),
    Divided,
    Killed,
}

/// What a call means: its reads in order, its one change, and how it ends.
#[derive(Clone, Copy, Debug)]
pub struct Meant {
    pub ends: Ends,
    pub first: u8,
    pub second: Option<u8>,
    pub change: Option<Change>,
}

/// The number that a record is given, or its deletion.
#[derive(Clone, Copy, Debug)]
pub struct Change {
    pub key: u8,
    pub number: Option<u64>,
}

impl Three {
    /// No records.
    pub fn absent() -> Three {
        Three {
            a: ABSENT,
            b: ABSENT,
            c: ABSENT,
        }
    }

    pub fn at(&self, key: u8) -> Record {
        match key {
            b'a' => self.a,
            b'b' => self.b,
            _ => self.c,
        }
    }

    fn set(&mut self, key: u8, record: Record) {
        match key {
            b'a' => self.a = record,
            b'b' => self.b = record,
            _ => self.c = record,
        }
    }

    /// Makes the change of entry `n`.
    pub fn make(&mut self, n: u64, change: Change) {
        let record = match change.number {
            Some(number) => Record {
                version: n.wrapping_add(1),
                number,
            },
            None => ABSENT,
        };
        self.set(change.key, record);
    }

    /// What a call means.
    pub fn meant(&self, call: &Drawn) -> Meant {
        if call.is_tight {
            return killed(call);
        }
        match call.ext {
            0 => self.count(call.key),
            1 => self.ratio(),
            2 => self.pour(call.key),
            _ => self.take(call.key),
        }
    }

    fn count(&self, key: u8) -> Meant {
        let before = self.at(key).number;
        Meant {
            ends: Ends::Done(before),
            first: key,
            second: None,
            change: Some(Change {
                key,
                number: Some(before.wrapping_add(1)),
            }),
        }
    }

    fn ratio(&self) -> Meant {
        let ends = match self.a.number.checked_div(self.b.number) {
            Some(code) => Ends::Done(code),
            None => Ends::Divided,
        };
        Meant {
            ends,
            first: b'a',
            second: Some(b'b'),
            change: None,
        }
    }

    /// A place that was read before is not read again.
    fn pour(&self, key: u8) -> Meant {
        let before = self.c.number;
        let second = if key == b'c' { None } else { Some(b'c') };
        let after = self.at(key).number.wrapping_add(before);
        Meant {
            ends: Ends::Done(before),
            first: key,
            second,
            change: Some(Change {
                key: b'c',
                number: Some(after),
            }),
        }
    }

    fn take(&self, key: u8) -> Meant {
        Meant {
            ends: Ends::Done(self.at(key).number),
            first: key,
            second: None,
            change: Some(Change { key, number: None }),
        }
    }
}

/// A call that is killed behind its first read, of `a` or of the record under its arguments.
fn killed(call: &Drawn) -> Meant {
    let first = if call.ext == 1 { b'a' } else { call.key };
    Meant {
        ends: Ends::Killed,
        first,
        second: None,
        change: None,
    }
}
