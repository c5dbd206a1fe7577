//! The size of a run's reads, and which of its calls fail.

/// How many bytes a read gives, how many reads are allowed, and the numbers of the calls that fail,
/// counted from 1.
#[derive(Clone, Copy, Drop)]
pub struct Case {
    pub size: usize,
    pub reads: u32,
    pub read: u32,
    pub write: u32,
    pub empty_write: u32,
    pub flush: u32,
}

impl Case {
    /// No call fails, and more reads are allowed than any run makes.
    pub fn of(size: usize) -> Case {
        Case {
            size,
            reads: 99_999,
            read: 0,
            write: 0,
            empty_write: 0,
            flush: 0,
        }
    }

    /// The same with so many reads, or with a call that fails.
    pub fn with(self, word: &str, number: u32) -> Case {
        let mut case = self;
        match word {
            "reads" => case.reads = number,
            "read" => case.read = number,
            "write" => case.write = number,
            "empty" => case.empty_write = number,
            _ => case.flush = number,
        }
        case
    }
}
