//! The commands that are built.

ghost use Rattle.std.specs.Prelude.{◌≡◌};
ghost use Rattle.vs_command.specs.Verbs.{has};

use crate::verb::Verb;

/// Which commands are built. The words of the others are no command.
#[derive(Clone, Copy)]
pub struct Verbs {
    pub run: bool,
    pub play: bool,
    pub generate: bool,
    pub reads: bool,
    pub plan: bool,
    pub audit: bool,
    pub info: bool,
}

/// The commands of the program.
pub const BUILT: Verbs = Verbs {
    run: true,
    play: true,
    generate: true,
    reads: true,
    plan: true,
    audit: true,
    info: true,
};

impl Verbs {
    pub fn has(self, verb: Verb) -> bool
        ensures { result ≡ has self verb }
    {
        match verb {
            Verb::Run => self.run,
            Verb::Play => self.play,
            Verb::Gen => self.generate,
            Verb::Reads => self.reads,
            Verb::Plan => self.plan,
            Verb::Audit => self.audit,
            Verb::Info => self.info,
        }
    }
}
