/// How far a call has come.
#[derive(Clone, Copy, PartialEq, Eq)]
pub enum Stage {
    /// It wasn't posted yet.
    Idle,
    /// It is posted to a set.
    Posted,
    /// The set granted it, and holds a reference.
    Running,
    /// Its operations ran.
    Acted,
    /// The set refused it.
    Refused,
    /// Its reference was given back, and its answer can be taken.
    Ended,
    /// Its answer is lost.
    Lost,
}

impl Stage {
    ghost use Rattle.std.specs.Prelude.{◌≡◌};
    ghost use Rattle.vs_calls.specs.Progress.{is_held, is_over};

    /// Whether the call holds a reference at its set.
    pub fn is_held(self) -> bool
        ensures { result ≡ is_held self }
    {
        matches!(self, Stage::Running | Stage::Acted)
    }

    /// Whether its answer can be taken, or it is lost.
    pub fn is_over(self) -> bool
        ensures { result ≡ is_over self }
    {
        matches!(self, Stage::Ended | Stage::Lost)
    }
}
