// What is measured, and how much of it.
use crate::fault::Fault;
use std::alloc::Global;
use std::fmt;

/// What is done with each unit.
#[derive(Clone, Copy, Debug, PartialEq, Eq)]
pub enum Work {
    Encode,
    Decode,
    Scan,
}

impl fmt::Display for Work {
    fn fmt<W: fmt::Write>(&self, f: &mut fmt::Formatter<W>) -> fmt::Result {
        let word = match self {
            Work::Encode => "encode",
            Work::Decode => "decode",
            Work::Scan => "scan",
        };
        f.write_str(word)
    }
}

/// How many units there are, how many bytes of data each has, and how many rounds are done.
#[derive(Clone, Copy, Debug, PartialEq, Eq)]
pub struct Size {
    pub units: u32,
    pub data: u32,
    pub rounds: u32,
}

impl fmt::Display for Size {
    fn fmt<W: fmt::Write>(&self, f: &mut fmt::Formatter<W>) -> fmt::Result {
        let Size {
            units,
            data,
            rounds,
        } = self;
        write!(f, "{units} units of {data} bytes of data, {rounds} rounds")
    }
}

/// What the words of a command line ask for.
pub fn read(alloc: Global, words: &[String]) -> Result<(Vec<Work>, Size), Fault> {
    let [what, units, data, rounds] = words else {
        return Err(Fault::Words);
    };
    let size = Size {
        units: number(units)?,
        data: number(data)?,
        rounds: number(rounds)?,
    };
    Ok((works(alloc, what)?, size))
}

fn works(alloc: Global, what: &str) -> Result<Vec<Work>, Fault> {
    match what {
        "encode" => Ok(vec![in alloc; Work::Encode]?),
        "decode" => Ok(vec![in alloc; Work::Decode]?),
        "scan" => Ok(vec![in alloc; Work::Scan]?),
        "all" => Ok(vec![in alloc; Work::Encode, Work::Decode, Work::Scan]?),
        _ => Err(Fault::Words),
    }
}

fn number(word: &str) -> Result<u32, Fault> {
    word.parse::<u32>().map_err(|_| Fault::Words)
}
