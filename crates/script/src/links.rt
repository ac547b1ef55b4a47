// Which links stand when an event comes.
ghost use Rattle.std.specs.Prelude.{◌≡◌, Bool, false, []};
ghost use Rattle.script.specs.Sheets.{same_pair, opening, stands, bad_break};

use crate::sheet::{Event, LinkEvent};

impl LinkEvent {
    // Does a link come about?
    fn is_opening(&self) -> bool
        ensures { result ≡ opening self.now }
    {
        matches!(self, LinkEvent::Opens(_))
    }
}

impl Event {
    // Is it an event of the same pair of peers?
    fn is_of_same_pair(&self, other: &Event) -> bool
        ensures { result ≡ same_pair self.now other.now }
    {
        (self.a == other.a && self.b == other.b) || (self.a == other.b && self.b == other.a)
    }

    // Does its link stand after these events?
    fn has_link_after(&self, past: &[Event]) -> bool
        ensures { result ≡ stands self.now false past.now }
    {
        past.iter().fold(false, |standing, event| {
            if event.is_of_same_pair(self) {
                event.what.is_opening()
            } else {
                standing
            }
        })
    }
}

// The line of the first event that breaks a link which does not stand.
pub(crate) fn first_bad_break(events: &[Event]) -> Option<u64>
    ensures { result ≡ bad_break [] events.now }
{
    // The place is needed, for the events before it say whether the link stands.
    for (i, event) in events.iter().enumerate() {
        if !event.what.is_opening() && !event.has_link_after(&events[..i]) {
            return Some(event.line);
        }
    }
    None
}
