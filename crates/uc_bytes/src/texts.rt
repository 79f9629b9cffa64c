ghost use Rattle.std.specs.Prelude.{◌≡◌};

use std::marker::Model;

/// A word of a command line, or the name of a file. A contract sees the list of its bytes.
#[derive(Debug, Drop)]
pub struct Text {
    text: String,
}

impl Model for Text {
    ghost use Rattle.std.specs.Prelude.{ℕ, List};
    ghost use Rattle.std.specs.String.{string_bytes};

    ghost Value = { List ℕ };

    ghost view = { λ t. string_bytes t.text };
}

impl Text {
    ghost use Rattle.std.specs.String.{string_bytes};

    pub fn new(text: String) -> Self
        ensures { result ≡ string_bytes text }
    {
        Text { text }
    }

    pub fn as_str(&self) -> &str
        ensures { result.now ≡ self.now }
    {
        self.text.as_str()
    }
}
