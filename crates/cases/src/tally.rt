// Counts of answers.

#[derive(Clone, Copy, Debug, Default, PartialEq, Eq)]
pub struct Tally {
    pub agree: u64,
    pub differ: u64,
}

impl Tally {
    // Counts stand still at the top, which no file reaches.
    pub fn count(&mut self, agrees: bool) {
        if agrees {
            self.agree = self.agree.saturating_add(1);
        } else {
            self.differ = self.differ.saturating_add(1);
        }
    }

    pub fn all(&self) -> u64 {
        self.agree.saturating_add(self.differ)
    }
}
