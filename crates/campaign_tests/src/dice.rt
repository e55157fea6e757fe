//! Numbers that look like chance, the same in each run.

/// A linear congruential generator.
#[derive(Drop)]
pub(crate) struct Dice {
    state: u64,
}

impl Dice {
    pub(crate) fn new(seed: u64) -> Dice {
        Dice { state: seed }
    }

    /// A number below that of the sides, which isn't 0.
    pub(crate) fn roll(&mut self, sides: u32) -> u32 {
        self.state = self
            .state
            .wrapping_mul(6_364_136_223_846_793_005)
            .wrapping_add(1_442_695_040_888_963_407);
        let high = (self.state >> 33)
            .checked_rem(u64::from(sides))
            .unwrap_or(0);
        u32::try_from(high).unwrap_or(0)
    }

    /// One of these words.
    pub(crate) fn pick(&mut self, words: &[&'static str]) -> &'static str {
        let at = self.roll(8) as usize;
        match words.get(at) {
            Some(word) => word,
            None => "",
        }
    }
}
