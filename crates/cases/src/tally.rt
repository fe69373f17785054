// How many cases of a block were run, and how many of them held.
use std::io::Print;
use std::{fmt, io};

#[derive(Clone, Copy, Default)]
pub struct Tally {
    held: u64,
    run: u64,
}

impl Tally {
    // Counts a case. One that does not hold is told: its line is bytes, which need not be text.
    pub fn count(&mut self, rt: &impl Print, case: &[u8], holds: bool) -> io::Result<()> {
        if !holds {
            rt.print("differs: ")?;
            rt.write_all(case)?;
            rt.println("")?;
        }
        self.run = self.run.wrapping_add(1);
        self.held = self.held.wrapping_add(u64::from(holds));
        Ok(())
    }
}

impl fmt::Display for Tally {
    fn fmt<W: fmt::Write>(&self, f: &mut fmt::Formatter<W>) -> fmt::Result {
        let Tally { held, run } = *self;
        write!(f, "{held} of {run}")
    }
}
