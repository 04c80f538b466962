//! Laws of the texts of events and requests. Their functions do nothing.
ghost use Rattle.std.specs.Prelude.{◌≡◌, ℕ, Bool, List, Some};
ghost use Rattle.artery_base.specs.declared.message.Request.{Request as RequestValue};
ghost use Rattle.artery_script.specs.declared.event.Event.{Event as EventValue};
ghost use Rattle.artery_script.specs.Valid.{IsAsked, RequestHasBytes, IsEvent, EventHasBytes};
ghost use Rattle.artery_script.specs.Texts.{event_text, asked_text};
ghost use Rattle.artery_script.specs.Reading.{event_of, asked_of};

use artery_text::{readings_are_spelled, spellings_are_read, spellings_are_tokens};

/// A law, with no code: the text of an event tells it; and a line that tells an event is that
/// event's text, and the event is one that a line can tell.
pub fn events_are_spelled()
    ensures told { (e : EventValue) → IsEvent e → EventHasBytes e → event_of (event_text e) ≡ Some e }
    ensures read { (text : List ℕ) (e : EventValue) → event_of text ≡ Some e → IsEvent e × (text ≡ event_text e) }
{
    spellings_are_read();
    readings_are_spelled();
    spellings_are_tokens();
}

/// A law, with no code: the same of the request lines of a node, with `same` and without.
pub fn requests_are_spelled()
    ensures told { (a : Bool × RequestValue) → IsAsked a → RequestHasBytes a.1 → asked_of (asked_text a) ≡ Some a }
    ensures read { (text : List ℕ) (a : Bool × RequestValue) → asked_of text ≡ Some a → IsAsked a × (text ≡ asked_text a) }
{
    spellings_are_read();
    readings_are_spelled();
    spellings_are_tokens();
}
