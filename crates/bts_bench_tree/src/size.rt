// How much is measured.
use crate::fault::Fault;

/// How many activities one process has, how many processes there are, and how many rounds are done.
#[derive(Clone, Copy, Debug, PartialEq, Eq)]
pub struct Size {
    pub activities: u32,
    pub processes: u32,
    pub rounds: u32,
}

impl Size {
    pub fn read(words: &[String]) -> Result<Size, Fault> {
        let [activities, processes, rounds] = words else {
            return Err(Fault::Words);
        };
        let size = Size {
            activities: number(activities)?,
            processes: number(processes)?,
            rounds: number(rounds)?,
        };
        if size.activities == 0 || size.processes == 0 {
            return Err(Fault::Words);
        }
        Ok(size)
    }
}

fn number(word: &str) -> Result<u32, Fault> {
    word.parse::<u32>().map_err(|_| Fault::Words)
}
