// Outcomes: two whole values.
ghost use Rattle.std.specs.Prelude.{◌↔◌, IsTrue};
ghost use Rattle.frontier.specs.Covers.{Covers};

/// The two values of a point: in a `Front` both in least form, in a front of the model's own sense as they are printed.
#[derive(Clone, Copy, Debug, Drop)]
pub struct Outcome {
    pub f1: i128,
    pub f2: i128,
}

impl Outcome {
    /// Whether both values are at most the other's.
    pub fn covers(&self, other: &Outcome) -> bool
        ensures { IsTrue result ↔ Covers self.now other.now }
    {
        self.f1 <= other.f1 && self.f2 <= other.f2
    }
}
