//! What is left of bytes that are taken from the front.
ghost use Rattle.std.specs.Prelude.{◌≡◌, ◌≤◌, ◌<◌, [], ◌++◌, take, length};
ghost use Rattle.std.specs.Option.{option_map_or};

use std::marker::Model;
use std::rc::Rc;

/// Bytes in memory that are taken from the front, of which there may be another owner. A contract sees those that are left.
#[derive(Drop)]
pub(crate) struct Opened {
    bytes: Option<Rc<Vec<u8>>>,
    at: usize,
}

impl Model for Opened {
    ghost use Rattle.std.specs.Prelude.{ℕ, List, [], drop, ◌≤◌, vec_len, IfSome};
    ghost use Rattle.std.specs.Option.{option_map_or};

    ghost Value = { List ℕ };

    ghost view = { λ opened. option_map_or (λ bytes. drop opened.at bytes.value.items) opened.bytes [] };

    ghost invariant = { λ opened. IfSome opened.bytes (λ bytes. opened.at ≤ vec_len bytes.value) };
}

impl Opened {
    /// Nothing is left.
    pub(crate) fn nothing() -> Self
        ensures { result ≡ [] }
    {
        Opened { bytes: None, at: 0 }
    }

    /// All of these bytes are left, if there are any.
    pub(crate) fn all_of(bytes: Option<Rc<Vec<u8>>>) -> Self
        ensures { result ≡ option_map_or (λ bytes. bytes.value.items) bytes [] }
    {
        Opened { bytes, at: 0 }
    }

    /// Moves as many bytes as there is room for, and says how many.
    pub(crate) fn take(&mut self, into: &mut [u8]) -> usize
        requires { 0 < length into.old }
        ensures fits { result ≤ length into.new }
        ensures taken { self.old ≡ take result into.new ++ self.new }
        ensures end { result ≡ 0 → self.old ≡ [] }
    {
        let Some(bytes) = &self.bytes else {
            return 0;
        };
        let rest = &bytes.as_ref().as_slice()[self.at..];
        let taken = rest.len().min(into.len());
        into[..taken].copy_from_slice(&rest[..taken]);
        self.at += taken;
        taken
    }
}
