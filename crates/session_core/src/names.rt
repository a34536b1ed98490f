//! The steps that keep versions under names. None of them looks, and none takes memory.
ghost use Rattle.std.specs.Prelude.{◌≡◌};
ghost use Rattle.language.specs.Language.{Hold, Release, Take};
ghost use Rattle.reply_text.specs.Replies.{reply_of};
ghost use Rattle.session_core.specs.Names.{holding, releasing, taking, NamesSo};

use crate::Session;
use crate::kept::{Named, place_of};
use crate::session::MOST_NAMES;
use facet_reader::Name;
use reply_text::Reply;

impl Session {
    /// Keeps the version in use under a name.
    pub(crate) fn hold(&mut self, name: &Name) -> Reply
        ensures step { NamesSo self.old (Hold name.now) self.new (reply_of result) }
        ensures held { self.new ≡ holding name.now self.old }
    {
        if place_of(self.names.as_slice(), name).is_some() {
            return Reply::HeldAlready(name.copy());
        }
        if self.names.len() >= MOST_NAMES {
            return Reply::HoldsFull;
        }
        let named = Named {
            name: name.copy(),
            place: self.in_use,
        };
        let Ok(()) = self.names.push(named) else {
            unreachable!()
        };
        Reply::Held {
            name: name.copy(),
            version: self.version(),
        }
    }

    /// Takes the version that a name stands for into use.
    pub(crate) fn take(&mut self, name: &Name) -> Reply
        ensures step { NamesSo self.old (Take name.now) self.new (reply_of result) }
        ensures taken { self.new ≡ taking name.now self.old }
    {
        let Some(place) = place_of(self.names.as_slice(), name) else {
            return Reply::NoName(name.copy());
        };
        self.in_use = place;
        Reply::Taken {
            name: name.copy(),
            version: self.version(),
        }
    }

    /// Forgets a name.
    pub(crate) fn release(&mut self, name: &Name) -> Reply
        ensures step { NamesSo self.old (Release name.now) self.new (reply_of result) }
        ensures released { self.new ≡ releasing name.now self.old }
    {
        if place_of(self.names.as_slice(), name).is_none() {
            return Reply::NoName(name.copy());
        }
        self.names.retain(|named| named.name != *name);
        Reply::Released(name.copy())
    }
}
