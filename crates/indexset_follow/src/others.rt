//! Which replies are written.

ghost use Rattle.std.specs.Prelude.{◌≡◌};
ghost use Rattle.indexset_follow.specs.Reply.{follower_others};

/// What is done with a line that is not one of the grammar.
#[derive(Clone, Copy, Debug, PartialEq, Eq)]
pub enum Others {
    /// The reply is `bad`.
    Tell,
    /// The line is passed over.
    Pass,
}

/// Which replies are written.
#[derive(Clone, Copy, Debug, PartialEq, Eq)]
pub struct Voice {
    /// What is done with a line that is not one of the grammar.
    pub others: Others,
    /// Whether a follower writes only urgent replies, and the answers to requests.
    pub is_quiet: bool,
}

impl Voice {
    /// Returns what a follower does with a line that is not one of the grammar.
    pub fn follower_others(self) -> Others
        ensures { result ≡ follower_others self }
    {
        if self.is_quiet {
            Others::Pass
        } else {
            self.others
        }
    }
}
