// A code that arrives in parts: a stream keeps what has come, and its end prepares the joined code.
#![tactic(auto)]

ghost use Rattle.std.specs.Prelude.{◌≡◌, length};
ghost use Rattle.streams.specs.Streams.{started, feeding, ending, ending_room};

use answers::{Refusal, Refused};
use preparing::prepare;
use writing::put_units;

// The longest code that is not refused for its length: no more units are kept.
const MOST: usize = 254;

// What feeding and ending are refused with after the end.
const AFTER_THE_END: Refused = Refused {
    refusal: Refusal::Ended,
    place: 0,
};

const TOO_LONG: Refused = Refused {
    refusal: Refusal::CodeLength,
    place: 0,
};

// What has come of a code: `count` units, of which `units` begins with those that are kept; more than 254 are counted as 255. The stream
// has ended where `ended` is not 0. (A number and no bool: C lends streams too, and there it may be any.)
#[repr(C)]
#[derive(Clone, Copy)]
pub struct Stream {
    pub units: [u16; 254],
    pub count: u16,
    pub ended: u16,
}

// What feeding returns.
#[derive(Clone, Copy)]
pub struct Fed {
    pub stream: Stream,
    pub fed: Result<(), Refused>,
}

// What ending returns.
#[derive(Clone, Copy)]
pub struct Finished {
    pub stream: Stream,
    pub prepared: Result<u32, Refused>,
}

impl Stream {
    // Nothing has come yet.
    pub fn start() -> Self
        ensures { result ≡ started }
    {
        Stream {
            units: [0u16; 254],
            count: 0,
            ended: 0,
        }
    }

    // A part comes. Units past the longest code are counted and not kept. (The units go by a run of their own here and in `end`: lent
    // from within the stream, the whole of it would be copied once more.)
    pub fn feed(mut self, part: &[u16]) -> Fed
        ensures { result ≡ feeding self part.now }
    {
        if self.ended != 0 {
            return Fed {
                stream: self,
                fed: Err(AFTER_THE_END),
            };
        }
        let mut units = self.units;
        let next = put_units(&mut units, usize::from(self.count), part);
        self.units = units;
        self.count = next.min(MOST + 1) as u16;
        Fed {
            stream: self,
            fed: Ok(()),
        }
    }

    // The code is complete: the end is final, and prepares what has come.
    pub fn end(mut self, table: &mut [u16]) -> Finished
        ensures result { result ≡ ending self (length table.old) }
        ensures table { table.new ≡ ending_room self table.old }
    {
        if self.ended != 0 {
            return Finished {
                stream: self,
                prepared: Err(AFTER_THE_END),
            };
        }
        self.ended = 1;
        let count = usize::from(self.count);
        if MOST < count {
            return Finished {
                stream: self,
                prepared: Err(TOO_LONG),
            };
        }
        let units = self.units;
        let prepared = prepare(&units[..count], table);
        Finished {
            stream: self,
            prepared,
        }
    }
}
