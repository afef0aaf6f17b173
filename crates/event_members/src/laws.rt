ghost use Rattle.event_members.specs.ReadBack.{PassesCommas, ReadsTexts, ReadsObjects, ReadsValues};

/// Every member that a line has is read again from its own text, whatever members stand after it.
pub fn members_read_back()
    ensures commas { PassesCommas }
    ensures texts { ReadsTexts }
    ensures objects { ReadsObjects }
    ensures values { ReadsValues }
{}
