// A segment that any check turns away ends its chain.
ghost use Rattle.std.specs.Prelude.{◌≡◌, true, OnOk, OnErr, if◌then◌else◌};
ghost use Rattle.port.specs.Serving.{shown_taken, next_of};

use crate::chains::{Chain, Taken};
use command::{Answer, Fault};

// Holds the chain record while a frame is looked at; its end closes the chain unless the chain was kept.
// The project names this form: a flag says that the chain was kept, and the end closes it otherwise.
pub struct Guard<'a> {
    pub chain: &'a mut Option<Chain>,
    pub kept: bool,
}

impl Drop for Guard<'_> {
    fn drop(self)
        ensures { self.exit.0.now ≡ (if self.entry.kept then self.entry.chain.now else None) }
    {
        if !self.kept {
            *self.chain = None;
        }
        let Guard { chain: _, kept: _ } = self;
    }
}

impl Guard<'_> {
    // A command that is taken leaves its chain; where it is turned away, the guard ends the chain.
    pub(crate) fn leave(&mut self, done: Result<Taken, Fault>) -> Result<Answer, Fault>
        ensures answer { result ≡ shown_taken done }
        ensures taken { OnOk done ((self.new.kept ≡ true) × (self.new.chain.now ≡ next_of done)) }
        ensures refused { OnErr done ((self.new.kept ≡ self.old.kept) × (self.new.chain.now ≡ self.old.chain.now)) }
        ensures same { self.new.chain.ghost_name ≡ self.old.chain.ghost_name }
    {
        let Taken { answer, next } = done?;
        *self.chain = next;
        self.kept = true;
        Ok(answer)
    }
}
