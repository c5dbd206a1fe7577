//! Worked rows: the cost of layouts. The contract of a function that does nothing.
ghost use Rattle.ctf_layout.specs.WorkRows.{WorkIsCounted};

/// How many steps the sizes and alignments of some dictionaries take.
pub fn work_is_counted()
    ensures { WorkIsCounted }
{}
