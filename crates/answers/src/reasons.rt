// Why something was refused: the reasons of documents 01 ("Numbers given back") and 02, each with the number by which it is told.
// specs/GivenBack.antt has these numbers by name, include/knotsaffron.h for C; docs/NUMBERS.md says what each one means to a tester.
ghost use Rattle.std.specs.Prelude.{◌≡◌, ◌<◌};
ghost use Rattle.answers.specs.Reasons.{reason_number, reason_with};

// Why something was refused. The numbers of document 01 stand first, then those that the requests of document 02 add.
#[derive(Clone, Copy, Debug, PartialEq, Eq, Hash)]
pub enum Reason {
    // Input, or bytes that would be written, above 2,048.
    TooLong = 1,

    // Type number not named; a row or width that is not there.
    UnknownType = 2,

    // A field's bits are not all there.
    Short = 3,

    // Code or argument not in the type's range.
    Outside = 4,

    // Extension bit is 1.
    Extended = 5,

    // Padding not zero, or a byte too many.
    SpareBits = 6,

    // Sheet is no value of the type.
    NoValue = 7,

    // Position leaves its type's range.
    LeavesItsRange = 9,

    // A3: a coordinate that means "no information".
    NoInformation = 10,

    // The frame is not RSI.
    NoRsi = 11,

    // An event has no eventPos.
    EventPosition = 12,

    // An event has none of eventRadius, referencePaths, referenceLinks.
    EventReach = 13,

    // A sign has no signPos.
    SignPosition = 14,

    // A sign has no description.
    SignDescription = 15,

    // A sign has neither referencePaths nor referenceLinks.
    SignReach = 16,

    // A4: no row is free for a new sender.
    TableFull = 20,

    // A4: received is at its highest number.
    CountFull = 21,

    // A1: the frame is not RSM.
    NoRsm = 22,

    // A1: a participant repeats an earlier ptcId.
    RepeatedId = 23,

    // A1: no participant has ptcId 0.
    UnitMissing = 24,

    // A4: a kind of message that has no sender.
    NoSender = 25,

    // A11: edition not known.
    UnknownEdition = 26,

    // A12: a length, index or open value not in its shortest form.
    NotShortest = 27,

    // A4: a sender that is not held.
    NotHeld = 28,

    // A10: a party but 0 and 1.
    UnknownParty = 29,

    // A1: the first of the numbers for required fields of a participant.
    FieldMissing = 30,

    // A2: a whole number outside its range.
    NumberOutside = 41,

    // A2: an enumeration index outside its range.
    ItemOutside = 42,

    // A2: a choice index outside its range.
    AlternativeOutside = 43,

    // A2: a size or count outside its range.
    SizeOutside = 44,

    // A7: the two frames are not SPAT and MAP.
    NoSpatAndMap = 50,

    // A7: two signal entries with equal region and id.
    RepeatedSignal = 51,

    // A7: a phase of the map that the signal entry does not list.
    PhaseNotListed = 52,

    // A13: a record of a capture file is cut.
    RecordCut = 60,

    // A13: a number of a capture file not in its shortest form, or above 64 bits.
    NumberNotShortest = 61,

    // A9: an entry that does not stand exactly once in a plan.
    EntryNotOnce = 70,

    // A9: a message of a plan that is empty, names an entry not there, is out of order, too full or too long.
    WrongMessage = 71,

    // An entry that no message has room for: there is no plan (a number of ours: document 02 gives it none).
    EntryTooLong = 72,
}

impl Reason {
    // All of them.
    pub const EVERY: [Reason; 38] = [
        Reason::TooLong,
        Reason::UnknownType,
        Reason::Short,
        Reason::Outside,
        Reason::Extended,
        Reason::SpareBits,
        Reason::NoValue,
        Reason::LeavesItsRange,
        Reason::NoInformation,
        Reason::NoRsi,
        Reason::EventPosition,
        Reason::EventReach,
        Reason::SignPosition,
        Reason::SignDescription,
        Reason::SignReach,
        Reason::TableFull,
        Reason::CountFull,
        Reason::NoRsm,
        Reason::RepeatedId,
        Reason::UnitMissing,
        Reason::NoSender,
        Reason::UnknownEdition,
        Reason::NotShortest,
        Reason::NotHeld,
        Reason::UnknownParty,
        Reason::FieldMissing,
        Reason::NumberOutside,
        Reason::ItemOutside,
        Reason::AlternativeOutside,
        Reason::SizeOutside,
        Reason::NoSpatAndMap,
        Reason::RepeatedSignal,
        Reason::PhaseNotListed,
        Reason::RecordCut,
        Reason::NumberNotShortest,
        Reason::EntryNotOnce,
        Reason::WrongMessage,
        Reason::EntryTooLong,
    ];

    // The number by which this reason is told.
    pub fn number(self) -> u64
        ensures is { result ≡ reason_number self }
        ensures small { result < 128 }
    {
        self as u64
    }

    // The reason that is told by this number, where there is one.
    pub fn with_number(number: u64) -> Option<Reason>
        ensures { result ≡ reason_with number }
    {
        for reason in Reason::EVERY {
            if reason.number() == number {
                return Some(reason);
            }
        }
        None
    }
}
