//! Numbers that look random, the same in each run.

/// A small generator of numbers.
#[derive(Drop)]
pub struct Dice {
    /// What the next number comes of.
    pub state: u64,
}

impl Dice {
    /// Returns a number below another one; 0 if that is 0.
    pub fn below(&mut self, limit: usize) -> usize {
        self.state = self
            .state
            .wrapping_mul(6_364_136_223_846_793_005)
            .wrapping_add(1_442_695_040_888_963_407);
        let rolled = (self.state >> 33) as usize;
        if limit == 0 { 0 } else { rolled % limit }
    }

    /// Returns one of some texts.
    pub fn pick<'a>(&mut self, from: &[&'a str]) -> &'a str {
        let at = self.below(from.len());
        match from.get(at) {
            Some(text) => *text,
            None => "",
        }
    }
}
