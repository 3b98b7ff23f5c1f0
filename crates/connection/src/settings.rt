ghost use Rattle.std.specs.Prelude.{◌≡◌, ◌≤◌, ◌&&◌, nat_le, Some, None, true, false, if◌then◌else◌};
ghost use Rattle.connection.specs.Settings.{are_possible, rules_of};

use connection_history::Order;
use connection_messages::{Cancels, Rules};
use content_streams::Framing;
use lsp_frames::{LARGEST_CONTENT, LONGEST_CONTENT};
use std::marker::Model;

/// A content has at most so many bytes, whatever the settings.
pub const MOST_CONTENT: u32 = LONGEST_CONTENT;

/// So many bytes are what a content has where nothing else is asked for.
pub const USUAL_CONTENT: u32 = LARGEST_CONTENT;

/// How a connection reads and writes.
#[derive(Clone, Copy)]
pub struct Settings {
    framing: Framing,
    order: Order,
    rules: Rules,
    tells_broken: bool,
    content: u32,
    calls: u64,
}

impl Model for Settings {
    ghost use Rattle.connection.specs.Settings.{Chosen, rules_of, are_possible};
    ghost use Rattle.std.specs.Prelude.{◌≡◌, true};

    ghost Value = { Chosen };

    ghost view = { λ s. record {
      framing = s.framing;
      order = s.order;
      cancels = s.rules.cancels;
      most_entries = s.rules.most_entries;
      null_params = s.rules.null_params;
      tells_broken = s.tells_broken;
      content = s.content;
      calls = s.calls;
    } };

    ghost invariant = { λ s. are_possible s.content s.calls ≡ true };

    ghost inverse = { λ c. record {
      framing = c.framing;
      order = c.order;
      rules = rules_of c;
      tells_broken = c.tells_broken;
      content = c.content;
      calls = c.calls;
    } };
}

impl Settings {
    /// These settings: how contents follow one another, when a unit's answer goes out, whose cancels the protocol has, if
    /// any, how many bytes a content may have (1 to 2,147,483,647), and how many calls may come (1 or more). A batch may have
    /// any number of entries, params that are null are none, and broken input isn't told. There are none where a number is
    /// outside of its range.
    pub fn new(
        framing: Framing,
        order: Order,
        cancels: Option<Cancels>,
        content: u32,
        calls: u64,
    ) -> Option<Settings>
        ensures { result ≡ (if are_possible content calls then Some (record {
          framing = framing;
          order = order;
          cancels = cancels;
          most_entries = None;
          null_params = false;
          tells_broken = false;
          content = content;
          calls = calls;
        }) else None) }
    {
        if content == 0 || content > MOST_CONTENT || calls == 0 {
            return None;
        }
        Some(Settings {
            framing,
            order,
            rules: Rules::new(cancels),
            tells_broken: false,
            content,
            calls,
        })
    }

    /// The same settings, where broken input is told.
    pub fn telling_broken(self) -> Settings
        ensures { result ≡ record self { tells_broken = true } }
    {
        Settings {
            tells_broken: true,
            ..self
        }
    }

    /// The same settings, where a batch may have so many entries, or any number. One of more is a single invalid entry.
    pub fn with_most_entries(self, most_entries: Option<u64>) -> Settings
        ensures { result ≡ record self { most_entries = most_entries } }
    {
        Settings {
            rules: Rules {
                most_entries,
                ..self.rules
            },
            ..self
        }
    }

    /// The same settings, where params that are null are told as the text `null`, or are none.
    pub fn with_null_params(self, told: bool) -> Settings
        ensures { result ≡ record self { null_params = told } }
    {
        Settings {
            rules: Rules {
                null_params: told,
                ..self.rules
            },
            ..self
        }
    }

    pub fn framing(&self) -> Framing
        ensures { result ≡ self.now.framing }
    {
        self.framing
    }

    pub fn order(&self) -> Order
        ensures { result ≡ self.now.order }
    {
        self.order
    }

    /// Whose cancels are told apart from calls, and withdraw ours.
    pub fn cancels(&self) -> Option<Cancels>
        ensures { result ≡ self.now.cancels }
    {
        self.rules.cancels
    }

    /// How contents are read.
    pub fn rules(&self) -> Rules
        ensures { result ≡ rules_of self.now }
    {
        self.rules
    }

    /// Whether broken input is told.
    pub fn tells_broken(&self) -> bool
        ensures { result ≡ self.now.tells_broken }
    {
        self.tells_broken
    }

    /// How many bytes a content may have.
    pub fn content(&self) -> u32
        ensures content { result ≡ self.now.content }
        ensures some { 1 ≤ result }
        ensures most { result ≤ MOST_CONTENT }
    {
        self.content
    }

    /// How many calls may come.
    pub fn calls(&self) -> u64
        ensures { result ≡ self.now.calls }
    {
        self.calls
    }
}
